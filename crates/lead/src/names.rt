// Names for all of document 01's numbers of phases and stop reasons, those that the code has no need of too.

// Kept: numbers, not an enum, as any 32 bytes are read as a lead (`StateRecord::read`, `decode`), and given back (`encode_decode`), phases
// above 10 too, of which `good_lead` and refusal 6 speak.
#[derive(Clone, Copy)]
pub struct Phase;

impl Phase {
    pub const IDLE: u8 = 0;

    // The car's first frames, its permission, and the threshold.
    pub const HANDSHAKE: u8 = 1;

    pub const LOCKING: u8 = 2;

    pub const INSULATION_TEST: u8 = 3;

    // The voltage of the insulation test falls.
    pub const TEST_DISCHARGE: u8 = 4;

    pub const CONTACTOR_CLOSING: u8 = 5;

    pub const CHARGING: u8 = 6;

    pub const RAMP_DOWN: u8 = 7;

    // The car opens its contactor, which must not be welded.
    pub const WELD_CHECK: u8 = 8;

    // The connector's voltage falls before it is unlocked.
    pub const FINAL_DISCHARGE: u8 = 9;

    pub const ENDED: u8 = 10;
}

// The numbers of the stop questions, which are the stop reasons.
// Kept: numbers, not an enum, as any byte is read as a reason and given back, as it is with a phase (`good_lead`, refusal 6).
#[derive(Clone, Copy)]
pub struct Reason;

impl Reason {
    pub const NONE: u8 = 0;

    pub const EMERGENCY_BUTTON: u8 = 11;

    pub const UNPLUGGED: u8 = 12;

    pub const GROUND_FAULT: u8 = 13;

    pub const PERMISSION_OPEN: u8 = 14;

    pub const BAD_READING: u8 = 15;

    pub const OVERVOLTAGE: u8 = 16;

    pub const OVERCURRENT: u8 = 17;

    pub const UNLOCKED: u8 = 18;

    pub const CAR_SILENT: u8 = 19;

    pub const CAR_FAULT: u8 = 20;

    pub const INCOMPATIBLE_VOLTAGE: u8 = 21;

    pub const NOT_IN_PARK: u8 = 22;

    pub const NOT_ENABLED: u8 = 23;

    pub const STOP_REQUEST: u8 = 24;

    pub const CONTACTOR_OPEN: u8 = 25;

    pub const STOP_BUTTON: u8 = 26;

    pub const LOW_INSULATION: u8 = 27;

    pub const PHASE_TIMEOUT: u8 = 28;

    pub const CHARGING_TIME_OVER: u8 = 29;
}
