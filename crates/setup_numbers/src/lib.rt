// The numbers that setup is given, as one struct from the bench program's line to the questions of the post's head. Below both, so that the
// language of the bench knows nothing of the post.
#![tactic(auto)]

// None of them is cut off. The resistance is the cable's, as its float's bits.
#[derive(Clone, Copy)]
pub struct SetupNumbers {
    pub leads: u32,
    pub volts: u32,
    pub amperes: u32,
    pub resistance: u32,
    pub errors: SetupErrors,
}

// The meters' errors, in tenths of a volt and of an ampere (2026-08).
#[derive(Clone, Copy)]
pub struct SetupErrors {
    pub volts: u32,
    pub amperes: u32,
}
