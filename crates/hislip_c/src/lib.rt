// What C links: each call of the server, each question and each call that keeps a journal, under its name in include/hislip_server.h. Each
// export makes the library's call of that name and promises what that one does.
#![tactic(auto)]

mod asking;
mod calls;
mod keeping;
