//! The tools that refuse a form.

use std::fmt;

/// Which of Icarus Verilog 11.0, Verilator 5.006 and Yosys 0.23 refuse a form, as tried.
#[derive(Clone, Copy, Debug, PartialEq, Eq)]
pub enum Tools {
    /// All three refuse it.
    All,
    Icarus,
    Verilator,
    Yosys,
    IcarusAndVerilator,
    IcarusAndYosys,
    VerilatorAndYosys,
    /// Each of the three refuses some of these, and none refuses all.
    Each,
    /// None of the three refuses it.
    Nobody,
}

impl Tools {
    /// What the tools do with the form.
    pub fn words(self) -> &'static str {
        match self {
            Tools::All => "Icarus, Verilator, Yosys refuse it",
            Tools::Icarus => "Icarus refuses it",
            Tools::Verilator => "Verilator refuses it",
            Tools::Yosys => "Yosys refuses it",
            Tools::IcarusAndVerilator => "Icarus, Verilator refuse it",
            Tools::IcarusAndYosys => "Icarus, Yosys refuse it",
            Tools::VerilatorAndYosys => "Verilator, Yosys refuse it",
            Tools::Each => "Icarus, Verilator, Yosys refuse some",
            Tools::Nobody => "no tool refuses it",
        }
    }
}

impl fmt::Display for Tools {
    fn fmt<W: fmt::Write>(&self, f: &mut fmt::Formatter<W>) -> fmt::Result {
        f.write_str(self.words())
    }
}
