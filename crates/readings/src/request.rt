// The service request that a first trip sends.
ghost use Rattle.readings.specs.Request.{request_code, with_value};
ghost use Rattle.std.specs.Prelude.{◌⊎◌, ◌≡◌};

// The byte with one more value set.
fn with_value(status: u8, value: u8) -> u8
    requires { (value ≡ 16) ⊎ (value ≡ 64) }
    ensures { result ≡ with_value status value }
{
    status | value
}

// The control code of a service request.
pub fn request_code(status: u8) -> u8
    ensures { result ≡ request_code status }
{
    with_value(with_value(status, 16), 64)
}
