// Every limit and code of the scope paper and of the change requests, once; `specs/Limits.antt` has them for the contracts.
// Letters are in crate codes, the numbers of refusals at the enum `Refusal`; the script's letters are in bench_script.

// Units n, numbered 0 to n - 1, and entries.
pub const MIN_UNITS: u8 = 3;

pub const MAX_UNITS: u8 = 16;

// A tally has a place for each unit number; by `as`, since usize::from is no constant's.
pub const SENDERS: usize = MAX_UNITS as usize;

pub const MIN_ENTRY: u16 = 1;

pub const MAX_ENTRY: u16 = 9999;

// Rounds: their type, the last one, and the bytes that a round takes.
pub type Round = u16;

pub const LAST_ROUND: Round = 9999;

pub const ROUND_WIDTH: usize = 2;

// Mileages, in steps of ten metres or of a hundred, and the numbers that stand for blank and split.
pub const MAX_MILEAGE: u32 = 99999999;

pub const SPLIT: u32 = 4294967294;

pub const BLANK: u32 = 4294967295;

// The receiver of a message to everyone, its sender too.
pub const EVERYONE: u8 = 255;

// The bytes of a log, an image and a message: 20, 152 and 18, of which 2 are the round.
pub const LOG_SIZE: usize = 18 + ROUND_WIDTH;

pub const IMAGE_SIZE: usize = 150 + ROUND_WIDTH;

pub const MESSAGE_SIZE: usize = 16 + ROUND_WIDTH;

// A log and a message as numbers, the zero byte left out.
pub const LOG_FIELDS: usize = 8;

pub const MESSAGE_FIELDS: usize = 9;

// The rows of a card, of which row k is entry k.
pub const MIN_ROWS: usize = 1;

pub const MAX_ROWS: usize = 64;

// The bench's message places, and the bytes of a script.
pub const PLACES: usize = 128;

pub const SCRIPT_SIZE: usize = 32768;
