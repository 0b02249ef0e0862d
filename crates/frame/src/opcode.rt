// The first bytes of frames, by the data sheet's names.
pub const TOF_UP: u32 = 0x00;

pub const TOF_DOWN: u32 = 0x01;

pub const TOF_DIFF: u32 = 0x02;

pub const TEMPERATURE: u32 = 0x03;

pub const RESET: u32 = 0x04;

pub const INITIALIZE: u32 = 0x05;

// An event of both kinds, of differences, and of temperatures.
pub const EVTMG1: u32 = 0x07;

pub const EVTMG2: u32 = 0x08;

pub const EVTMG3: u32 = 0x09;

pub const HALT: u32 = 0x0a;

pub const LDO_ON: u32 = 0x0c;

pub const LDO_OFF: u32 = 0x0d;

pub const WRITE_FLASH: u32 = 0x10;

pub const BLOCK_ERASE: u32 = 0x13;

pub const READ_FLASH: u32 = 0x90;
