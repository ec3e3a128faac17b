// Why a command, and with it its program, is refused. Document 01, "Commands".
#![tactic(auto)]

#[derive(Clone, Copy)]
pub enum Refusal {
    Denied,
    Failed,
    Full,
}
