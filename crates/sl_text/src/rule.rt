use std::fmt;

/// The phases of the check of a source, in their order, by the letters that their rules are printed with: lexical rules,
/// grammar, names, types, purity, aliases and sizes.
#[derive(Clone, Copy, Debug, PartialEq, Eq, PartialOrd, Ord)]
pub enum Phase {
    L,
    G,
    N,
    Y,
    P,
    A,
    S,
}

/// A rule that sources keep. It prints as its phase and its number, as `L1`.
#[derive(Clone, Copy, Debug, PartialEq, Eq, PartialOrd, Ord)]
pub struct Rule {
    pub phase: Phase,
    pub number: u8,
}

impl fmt::Display for Phase {
    ghost use Rattle.std.specs.Prelude.{Some};
    ghost use Rattle.sl_text.specs.Rules.{phase_text};

    ghost output = { λ phase. Some (phase_text phase) };

    fn fmt<W: fmt::Write>(&self, f: &mut fmt::Formatter<W>) -> fmt::Result {
        f.write_str(match self {
            Phase::L => "L",
            Phase::G => "G",
            Phase::N => "N",
            Phase::Y => "Y",
            Phase::P => "P",
            Phase::A => "A",
            Phase::S => "S",
        })
    }
}

impl fmt::Display for Rule {
    ghost use Rattle.std.specs.Prelude.{Some};
    ghost use Rattle.sl_text.specs.Rules.{rule_text};

    ghost output = { λ rule. Some (rule_text rule) };

    fn fmt<W: fmt::Write>(&self, f: &mut fmt::Formatter<W>) -> fmt::Result {
        let phase = self.phase;
        let number = self.number;
        write!(f, "{phase}{number}")
    }
}
