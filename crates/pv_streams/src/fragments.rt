//! Fragments of a text.
//!
//! A tuple of two to six fragments is a fragment, whose text is the concatenation of theirs.
ghost use Rattle.std.specs.Prelude.{◌≡◌, ◌++◌, ℕ, List};
ghost use Rattle.pv_streams.specs.Fragments.{text_where};
ghost use Rattle.pv_streams.specs.Sinks.{Writes};

use crate::writing::write_whole;
use pv_model::{Failed, Sink};

/// A fragment of a text.
pub trait Fragment {
    /// The bytes of the fragment.
    ghost text: { Self → List ℕ };

    /// Writes the fragment.
    ///
    /// # Errors
    ///
    /// `Failed`, if a write failed. The sink received a prefix of the fragment.
    fn write<W: Sink>(&self, out: &mut W) -> Result<(), Failed>
        ensures { Writes W.Sink (text self.now) out.old out.new result };
}

/// Bytes that are written unchanged.
#[derive(Clone, Copy)]
pub struct Plain<'a>(pub &'a [u8]);

impl<'a> Fragment for Plain<'a> {
    ghost text = { λ p. p.0.now };

    fn write<W: Sink>(&self, out: &mut W) -> Result<(), Failed> {
        write_whole(out, self.0)
    }
}

/// A reference to a fragment.
impl<'a, P: Fragment> Fragment for &'a P {
    ghost text = { λ p. P.text p.now };

    fn write<W: Sink>(&self, out: &mut W) -> Result<(), Failed> {
        (**self).write(out)
    }
}

/// An optional fragment. Nothing is written for `None`.
impl<P: Fragment> Fragment for Option<P> {
    ghost text = { λ p. text_where P.text p };

    fn write<W: Sink>(&self, out: &mut W) -> Result<(), Failed> {
        match self {
            Some(fragment) => fragment.write(out),
            None => Ok(()),
        }
    }
}

impl<A: Fragment, B: Fragment> Fragment for (A, B) {
    ghost text = { λ p. A.text p.0 ++ B.text p.1 };

    #[tactic(auto, using(crate::proofs::OutputTexts::written_both))]
    fn write<W: Sink>(&self, out: &mut W) -> Result<(), Failed> {
        self.0.write(out)?;
        self.1.write(out)
    }
}

impl<A: Fragment, B: Fragment, C: Fragment> Fragment for (A, B, C) {
    ghost text = { λ p. A.text p.0 ++ B.text p.1 ++ C.text p.2 };

    #[tactic(auto, using(crate::proofs::OutputTexts::written_both))]
    fn write<W: Sink>(&self, out: &mut W) -> Result<(), Failed> {
        self.0.write(out)?;
        self.1.write(out)?;
        self.2.write(out)
    }
}

impl<A: Fragment, B: Fragment, C: Fragment, D: Fragment> Fragment for (A, B, C, D) {
    ghost text = { λ p. A.text p.0 ++ B.text p.1 ++ C.text p.2 ++ D.text p.3 };

    #[tactic(auto, using(crate::proofs::OutputTexts::written_both))]
    fn write<W: Sink>(&self, out: &mut W) -> Result<(), Failed> {
        self.0.write(out)?;
        self.1.write(out)?;
        self.2.write(out)?;
        self.3.write(out)
    }
}

impl<A: Fragment, B: Fragment, C: Fragment, D: Fragment, E: Fragment> Fragment for (A, B, C, D, E) {
    ghost text = { λ p. A.text p.0 ++ B.text p.1 ++ C.text p.2 ++ D.text p.3 ++ E.text p.4 };

    #[tactic(auto, using(crate::proofs::OutputTexts::written_both))]
    fn write<W: Sink>(&self, out: &mut W) -> Result<(), Failed> {
        self.0.write(out)?;
        self.1.write(out)?;
        self.2.write(out)?;
        self.3.write(out)?;
        self.4.write(out)
    }
}

impl<A: Fragment, B: Fragment, C: Fragment, D: Fragment, E: Fragment, F: Fragment> Fragment
    for (A, B, C, D, E, F) {
    ghost text = { λ p. A.text p.0 ++ B.text p.1 ++ C.text p.2 ++ D.text p.3 ++ E.text p.4 ++ F.text p.5 };

    #[tactic(auto, using(crate::proofs::OutputTexts::written_both))]
    fn write<W: Sink>(&self, out: &mut W) -> Result<(), Failed> {
        self.0.write(out)?;
        self.1.write(out)?;
        self.2.write(out)?;
        self.3.write(out)?;
        self.4.write(out)?;
        self.5.write(out)
    }
}
