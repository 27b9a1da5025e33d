// Where the chip's registers and its turn stand in the 93 bytes of a receiver.
#[derive(Clone, Copy)]
pub struct Register;

impl Register {
    pub const STATUS: usize = 0;

    pub const OVERRUN: usize = 1;

    pub const MASK: usize = 2;

    pub const ACKNOWLEDGE: usize = 3;

    // Where the first mailbox begins.
    pub const MAILBOXES: usize = 4;

    pub const LAST: u32 = 91;
}

pub const MAILBOX_COUNT: u8 = 8;

pub const FRAME_SIZE: usize = 11;

// The turn is no register: the host cannot read it from the chip.
pub const TURN: usize = 92;

pub const RECEIVER_SIZE: usize = 93;

pub type Receiver = [u8; RECEIVER_SIZE];

pub type Frame = [u8; FRAME_SIZE];
