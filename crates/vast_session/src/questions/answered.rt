//! What questions answer.

ghost use Rattle.std.specs.Prelude.{◌≡◌};
ghost use Rattle.vast_session.specs.Replies.{direction_word};

use std::fmt;
use std::fmt::Write;
use xlsynth_vast::ModulePortDirection;

/// What a question answers.
#[derive(Drop)]
pub enum Value {
    Text(String),
    /// The width of a type that has none.
    Nothing,
    Truth(bool),
    /// A width or a number of bits.
    Number(i64),
    /// A number of members.
    Count(usize),
    Ports(Vec<PortValue>),
}

/// A port of a module.
#[derive(Drop)]
pub struct PortValue {
    pub name: String,
    pub direction: ModulePortDirection,
    /// Its bits; 0 where they aren't known.
    pub width: i64,
    pub signed: bool,
    /// The name that stands for it in expressions.
    pub reference: String,
}

impl PortValue {
    /// The word of its direction.
    pub fn direction_word(&self) -> &'static str
        ensures { result.now ≡ direction_word self.now.direction }
    {
        match self.direction {
            ModulePortDirection::Input => "Input",
            ModulePortDirection::Output => "Output",
            ModulePortDirection::InOut => "InOut",
        }
    }
}

/// The answer as lists print it, without the last line break: ports are their number and then a line for each.
impl fmt::Display for Value {
    fn fmt<W: fmt::Write>(&self, f: &mut fmt::Formatter<W>) -> fmt::Result {
        match self {
            Value::Text(text) => f.write_str(text),
            Value::Nothing => f.write_str("-"),
            Value::Truth(truth) => write!(f, "{truth}"),
            Value::Number(number) => write!(f, "{number}"),
            Value::Count(count) => write!(f, "{count}"),
            Value::Ports(ports) => write_ports(f, ports),
        }
    }
}

fn write_ports<W: fmt::Write>(f: &mut fmt::Formatter<W>, ports: &[PortValue]) -> fmt::Result {
    write!(f, "{}", ports.len())?;
    for port in ports {
        write!(
            f,
            "\n{} {} {} {} {}",
            port.name,
            port.direction_word(),
            port.width,
            port.signed,
            port.reference
        )?;
    }
    Ok(())
}
