//! The numbers that an instruction holds, each in its range.

ghost use Rattle.std.specs.Prelude.{ℕ, ℤ, ◌<◌};
ghost use Rattle.rv32_isa.specs.Bits.{IsImm12, IsOffB, IsOffJ};

use std::marker::Model;

/// A register by its number, 0 to 31.
#[derive(Clone, Copy, PartialEq, Eq, Debug, Drop)]
pub struct Reg(pub u8);

impl Model for Reg {
    ghost Value = { ℕ };

    ghost view = { λ r. r.0 };

    ghost invariant = { λ r. r.0 < 32 };

    ghost inverse = { λ n. record { 0 = n } };
}

/// A signed immediate of 12 bits: -2048 to 2047.
#[derive(Clone, Copy, PartialEq, Eq, Debug, Drop)]
pub struct Imm12(pub i32);

impl Model for Imm12 {
    ghost Value = { ℤ };

    ghost view = { λ r. r.0 };

    ghost invariant = { λ r. IsImm12 r.0 };

    ghost inverse = { λ n. record { 0 = n } };
}

/// The upper 20 bits of a word that LUI and AUIPC make: 0 to 1,048,575.
#[derive(Clone, Copy, PartialEq, Eq, Debug, Drop)]
pub struct Imm20(pub u32);

impl Model for Imm20 {
    ghost Value = { ℕ };

    ghost view = { λ r. r.0 };

    ghost invariant = { λ r. r.0 < 1048576 };

    ghost inverse = { λ n. record { 0 = n } };
}

/// How far a branch goes, in bytes from its own address: an even number, -4096 to 4094.
#[derive(Clone, Copy, PartialEq, Eq, Debug, Drop)]
pub struct OffB(pub i32);

impl Model for OffB {
    ghost Value = { ℤ };

    ghost view = { λ r. r.0 };

    ghost invariant = { λ r. IsOffB r.0 };

    ghost inverse = { λ n. record { 0 = n } };
}

/// How far a jump goes, in bytes from its own address: an even number, -1,048,576 to 1,048,574.
#[derive(Clone, Copy, PartialEq, Eq, Debug, Drop)]
pub struct OffJ(pub i32);

impl Model for OffJ {
    ghost Value = { ℤ };

    ghost view = { λ r. r.0 };

    ghost invariant = { λ r. IsOffJ r.0 };

    ghost inverse = { λ n. record { 0 = n } };
}

/// How many bits a shift by a constant goes: 0 to 31.
#[derive(Clone, Copy, PartialEq, Eq, Debug, Drop)]
pub struct Amount(pub u8);

impl Model for Amount {
    ghost Value = { ℕ };

    ghost view = { λ r. r.0 };

    ghost invariant = { λ r. r.0 < 32 };

    ghost inverse = { λ n. record { 0 = n } };
}

/// The upper 12 bits of a FENCE, its mode and its predecessor and successor sets: 0 to 4095.
#[derive(Clone, Copy, PartialEq, Eq, Debug, Drop)]
pub struct Top(pub u16);

impl Model for Top {
    ghost Value = { ℕ };

    ghost view = { λ r. r.0 };

    ghost invariant = { λ r. r.0 < 4096 };

    ghost inverse = { λ n. record { 0 = n } };
}
