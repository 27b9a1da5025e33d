// Frame records as the input hands them over: identifier (2 bytes), length (1), data (8).

// A frame record's size and the places in it.
#[derive(Clone, Copy)]
pub struct FrameRecord;

impl FrameRecord {
    pub const SIZE: usize = 11;

    pub(crate) const IDENTIFIER: usize = 0;

    pub(crate) const LENGTH: usize = 2;

    pub(crate) const DATA: usize = 3;

    // Only a frame of all eight data bytes counts.
    pub(crate) const DATA_SIZE: u8 = 8;
}
