// Remote and local control: the three flags, and what a control code makes of them.
#![tactic(auto)]

ghost use Rattle.model.specs.Exchange.{controlled};
ghost use Rattle.model.specs.State.{Making, fresh};
ghost use Rattle.remote.specs.Shown.{shown};
ghost use Rattle.std.specs.Prelude.{◌≡◌};

#[repr(C)]
#[derive(Clone, Copy, Default)]
pub struct RemoteLocal {
    pub enable: bool,
    pub lockout: bool,
    pub remote: bool,
}

impl RemoteLocal {
    // The flags start off.
    pub fn start() -> RemoteLocal
        ensures { (v : Making) → shown result ≡ (fresh v).rest.remote_local }
    {
        RemoteLocal::default()
    }

    // Codes 1, 3, 4 and 5 set flags, 6 clears remote, any other clears all three.
    #[tactic(auto, unfolding(model::specs::Exchange::controlled))]
    pub fn controlled(self, code: u8) -> RemoteLocal
        ensures { shown result ≡ controlled code (shown self) }
    {
        match code {
            1 => RemoteLocal {
                enable: true,
                ..self
            },
            3 => RemoteLocal {
                enable: true,
                remote: true,
                ..self
            },
            4 => RemoteLocal {
                enable: true,
                lockout: true,
                ..self
            },
            5 => RemoteLocal {
                enable: true,
                lockout: true,
                remote: true,
            },
            6 => RemoteLocal {
                remote: false,
                ..self
            },
            _ => RemoteLocal::default(),
        }
    }

    // The same in place, on flags that the caller lends.
    pub fn control(&mut self, code: u8)
        ensures { shown self.new ≡ controlled code (shown self.old) }
    {
        *self = self.controlled(code);
    }
}
