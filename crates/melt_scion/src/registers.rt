//! The registers of a thread.

/// What the 16 registers of a thread hold: each holds 0 for nothing, or the address of an object.
#[derive(Clone, Copy, Debug, PartialEq, Eq)]
pub struct Registers {
    pub regs: [u32; 16],
}
