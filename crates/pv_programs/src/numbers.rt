//! Values as lists of numbers.
ghost use Rattle.std.specs.Prelude.{◌≡◌, ℕ, List, OnOk};
ghost use Rattle.pv_programs.specs.Appending.{AppendsNumbers};

use pv_model::{Mode, OpenFlags, Operand, Origin, Register, Text, Whence};
use std::alloc::AllocError;

/// A value as a list of numbers. A tuple of values has the numbers of each in order.
pub(crate) trait Numbered {
    /// The numbers of the value.
    ghost numbers: { Self → List ℕ };

    /// Appends the numbers.
    ///
    /// # Errors
    ///
    /// `AllocError`, if there is no memory.
    fn push(&self, out: &mut Vec<u64>) -> Result<(), AllocError>
        ensures { OnOk result (AppendsNumbers (numbers self.now) out.old.items out.new.items) };
}

impl Numbered for u64 {
    ghost use Rattle.std.specs.Prelude.{◌∷◌, []};

    ghost numbers = { λ n. n ∷ [] };

    #[tactic(auto, using(crate::proofs::AppendedNumbers::appends_one))]
    fn push(&self, out: &mut Vec<u64>) -> Result<(), AllocError> {
        out.push(*self)?;
        Ok(())
    }
}

impl Numbered for u16 {
    ghost use Rattle.std.specs.Prelude.{◌∷◌, []};

    ghost numbers = { λ n. n ∷ [] };

    fn push(&self, out: &mut Vec<u64>) -> Result<(), AllocError> {
        u64::from(*self).push(out)
    }
}

impl Numbered for bool {
    ghost use Rattle.pv_model.specs.Answers.Numbers.{bool_numbers};

    ghost numbers = { bool_numbers };

    fn push(&self, out: &mut Vec<u64>) -> Result<(), AllocError> {
        if *self {
            1u64.push(out)
        } else {
            0u64.push(out)
        }
    }
}

/// The sign, and then the magnitude.
impl Numbered for i32 {
    ghost use Rattle.pv_model.specs.Answers.Numbers.{integer_numbers};

    ghost numbers = { integer_numbers };

    fn push(&self, out: &mut Vec<u64>) -> Result<(), AllocError> {
        let number = *self;
        if number >= 0 {
            (0u64, u64::from(number.unsigned_abs())).push(out)
        } else {
            (1u64, u64::from((!number).unsigned_abs())).push(out)
        }
    }
}

impl Numbered for Register {
    ghost use Rattle.std.specs.Prelude.{◌∷◌, []};

    ghost numbers = { λ n. n ∷ [] };

    fn push(&self, out: &mut Vec<u64>) -> Result<(), AllocError> {
        (self.number() as u64).push(out)
    }
}

impl Numbered for Operand {
    ghost use Rattle.pv_model.specs.Answers.Numbers.{operand_numbers};

    ghost numbers = { operand_numbers };

    fn push(&self, out: &mut Vec<u64>) -> Result<(), AllocError> {
        match *self {
            Operand::Number(number) => (0u64, number).push(out),
            Operand::Register(register) => (1u64, register).push(out),
        }
    }
}

impl Numbered for Origin {
    ghost use Rattle.pv_model.specs.Answers.Numbers.{origin_numbers};

    ghost numbers = { origin_numbers };

    fn push(&self, out: &mut Vec<u64>) -> Result<(), AllocError> {
        match *self {
            Origin::WorkingDirectory => 0u64.push(out),
            Origin::Descriptor(operand) => (1u64, operand).push(out),
        }
    }
}

impl Numbered for Whence {
    ghost use Rattle.pv_model.specs.Answers.Numbers.{whence_numbers};

    ghost numbers = { whence_numbers };

    fn push(&self, out: &mut Vec<u64>) -> Result<(), AllocError> {
        match *self {
            Whence::Set => 0u64.push(out),
            Whence::Current => 1u64.push(out),
            Whence::End => 2u64.push(out),
        }
    }
}

impl Numbered for Mode {
    ghost use Rattle.pv_model.specs.Answers.Numbers.{mode_numbers};

    ghost numbers = { mode_numbers };

    fn push(&self, out: &mut Vec<u64>) -> Result<(), AllocError> {
        match *self {
            Mode::Read => 0u64.push(out),
            Mode::Write => 1u64.push(out),
            Mode::ReadWrite => 2u64.push(out),
        }
    }
}

impl Numbered for OpenFlags {
    ghost use Rattle.pv_model.specs.Answers.Numbers.{flags_numbers};

    ghost numbers = { flags_numbers };

    fn push(&self, out: &mut Vec<u64>) -> Result<(), AllocError> {
        let access = (self.mode, self.append, self.create);
        let finding = (access, self.truncate, self.exclusive);
        let following = (finding, self.no_follow, self.directory);
        (following, self.close_on_exec).push(out)
    }
}

// Appends each of the bytes as a number.
#[tactic(auto, using(crate::proofs::AppendedNumbers::appends_more, crate::proofs::AppendedNumbers::appends_none, crate::proofs::AppendedNumbers::appends_all))]
fn push_each_byte(out: &mut Vec<u64>, bytes: &[u8]) -> Result<(), AllocError>
    ensures { OnOk result (AppendsNumbers bytes.now out.old.items out.new.items) }
{
    for byte in bytes {
        u64::from(*byte).push(out)?;
    }
    Ok(())
}

/// The length, and then the bytes.
impl Numbered for Text {
    ghost use Rattle.pv_model.specs.Answers.Numbers.{bytes_numbers};

    ghost numbers = { bytes_numbers };

    #[tactic(auto, using(crate::proofs::AppendedNumbers::appends_then))]
    fn push(&self, out: &mut Vec<u64>) -> Result<(), AllocError> {
        let bytes = self.as_slice();
        (bytes.len() as u64).push(out)?;
        push_each_byte(out, bytes)
    }
}

impl Numbered for Option<Text> {
    ghost use Rattle.pv_model.specs.Answers.Numbers.{text_numbers};

    ghost numbers = { text_numbers };

    fn push(&self, out: &mut Vec<u64>) -> Result<(), AllocError> {
        match self {
            None => 0u64.push(out),
            Some(text) => (1u64, text).push(out),
        }
    }
}

/// A reference to a value.
impl<'a, N: Numbered> Numbered for &'a N {
    ghost numbers = { λ n. N.numbers n.now };

    fn push(&self, out: &mut Vec<u64>) -> Result<(), AllocError> {
        (**self).push(out)
    }
}

impl<A: Numbered, B: Numbered> Numbered for (A, B) {
    ghost use Rattle.std.specs.Prelude.{◌++◌};

    ghost numbers = { λ p. A.numbers p.0 ++ B.numbers p.1 };

    #[tactic(auto, using(crate::proofs::AppendedNumbers::appends_both))]
    fn push(&self, out: &mut Vec<u64>) -> Result<(), AllocError> {
        self.0.push(out)?;
        self.1.push(out)
    }
}

impl<A: Numbered, B: Numbered, C: Numbered> Numbered for (A, B, C) {
    ghost use Rattle.std.specs.Prelude.{◌++◌};

    ghost numbers = { λ p. A.numbers p.0 ++ B.numbers p.1 ++ C.numbers p.2 };

    #[tactic(auto, using(crate::proofs::AppendedNumbers::appends_both))]
    fn push(&self, out: &mut Vec<u64>) -> Result<(), AllocError> {
        self.0.push(out)?;
        self.1.push(out)?;
        self.2.push(out)
    }
}

impl<A: Numbered, B: Numbered, C: Numbered, D: Numbered> Numbered for (A, B, C, D) {
    ghost use Rattle.std.specs.Prelude.{◌++◌};

    ghost numbers = { λ p. A.numbers p.0 ++ B.numbers p.1 ++ C.numbers p.2 ++ D.numbers p.3 };

    #[tactic(auto, using(crate::proofs::AppendedNumbers::appends_both))]
    fn push(&self, out: &mut Vec<u64>) -> Result<(), AllocError> {
        self.0.push(out)?;
        self.1.push(out)?;
        self.2.push(out)?;
        self.3.push(out)
    }
}
