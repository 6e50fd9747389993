//! The queue's ports and variables.

ghost use Rattle.std.specs.Prelude.{◌≤ℤ◌, pos, IfOk};
ghost use Rattle.vast_core.specs.Bench.{OwnsExpr, OwnsModule, OwnsType};
ghost use Rattle.xlsynth_vast.specs.Keeps.{Keeps};

use crate::asked::declare_logic;
use crate::fault::ExampleFault;
use crate::parts::{Pair, add_clock, add_input, add_output, make_bits};
use xlsynth_vast::{Expr, VastDataType, VastFile, VastModule};

/// The ports: `full` hinders a write, `empty` a read.
#[derive(Drop)]
pub(crate) struct Ports {
    pub(crate) clk: Expr,
    pub(crate) rst: Expr,
    pub(crate) write: Expr,
    pub(crate) write_data: Expr,
    pub(crate) read: Expr,
    pub(crate) read_data: Expr,
    pub(crate) full: Expr,
    pub(crate) empty: Expr,
}

/// The ports by which words are written and read.
#[derive(Drop)]
struct Access {
    write: Expr,
    write_data: Expr,
    read: Expr,
    read_data: Expr,
}

/// The words, the pointers to where the next is written (head) and read (tail), and whether one is now.
#[derive(Drop)]
pub(crate) struct State {
    pub(crate) words: Expr,
    pub(crate) head: Expr,
    pub(crate) tail: Expr,
    pub(crate) writes: Expr,
    pub(crate) reads: Expr,
}

pub(crate) fn add_ports(
    owner: VastModule,
    width: i64,
    file: &mut VastFile,
) -> Result<Ports, ExampleFault>
    requires owner { OwnsModule file.old owner }
    requires width { pos 1 ≤ℤ width }
    ensures clk { IfOk result (λ p. OwnsExpr file.new p.clk) }
    ensures rst { IfOk result (λ p. OwnsExpr file.new p.rst) }
    ensures write { IfOk result (λ p. OwnsExpr file.new p.write) }
    ensures write_data { IfOk result (λ p. OwnsExpr file.new p.write_data) }
    ensures read { IfOk result (λ p. OwnsExpr file.new p.read) }
    ensures read_data { IfOk result (λ p. OwnsExpr file.new p.read_data) }
    ensures full { IfOk result (λ p. OwnsExpr file.new p.full) }
    ensures empty { IfOk result (λ p. OwnsExpr file.new p.empty) }
    ensures kept { Keeps file.old file.new }
{
    let clock = add_clock(owner, file)?;
    let access = add_access(owner, width, file)?;
    let hindered = add_hindered(owner, file)?;
    Ok(Ports {
        clk: clock.first,
        rst: clock.second,
        write: access.write,
        write_data: access.write_data,
        read: access.read,
        read_data: access.read_data,
        full: hindered.first,
        empty: hindered.second,
    })
}

fn add_access(owner: VastModule, width: i64, file: &mut VastFile) -> Result<Access, ExampleFault>
    requires owner { OwnsModule file.old owner }
    requires width { pos 1 ≤ℤ width }
    ensures write { IfOk result (λ a. OwnsExpr file.new a.write) }
    ensures write_data { IfOk result (λ a. OwnsExpr file.new a.write_data) }
    ensures read { IfOk result (λ a. OwnsExpr file.new a.read) }
    ensures read_data { IfOk result (λ a. OwnsExpr file.new a.read_data) }
    ensures kept { Keeps file.old file.new }
{
    let write = add_write(owner, width, file)?;
    let read = add_read(owner, width, file)?;
    Ok(Access {
        write: write.first,
        write_data: write.second,
        read: read.first,
        read_data: read.second,
    })
}

fn add_write(owner: VastModule, width: i64, file: &mut VastFile) -> Result<Pair, ExampleFault>
    requires owner { OwnsModule file.old owner }
    requires width { pos 1 ≤ℤ width }
    ensures first { IfOk result (λ p. OwnsExpr file.new p.first) }
    ensures second { IfOk result (λ p. OwnsExpr file.new p.second) }
    ensures kept { Keeps file.old file.new }
{
    let first = add_input(owner, "write", 1, file)?;
    let second = add_input(owner, "write_data", width, file)?;
    Ok(Pair { first, second })
}

fn add_read(owner: VastModule, width: i64, file: &mut VastFile) -> Result<Pair, ExampleFault>
    requires owner { OwnsModule file.old owner }
    requires width { pos 1 ≤ℤ width }
    ensures first { IfOk result (λ p. OwnsExpr file.new p.first) }
    ensures second { IfOk result (λ p. OwnsExpr file.new p.second) }
    ensures kept { Keeps file.old file.new }
{
    let first = add_input(owner, "read", 1, file)?;
    let second = add_output(owner, "read_data", width, file)?;
    Ok(Pair { first, second })
}

fn add_hindered(owner: VastModule, file: &mut VastFile) -> Result<Pair, ExampleFault>
    requires owner { OwnsModule file.old owner }
    ensures first { IfOk result (λ p. OwnsExpr file.new p.first) }
    ensures second { IfOk result (λ p. OwnsExpr file.new p.second) }
    ensures kept { Keeps file.old file.new }
{
    let first = add_output(owner, "full", 1, file)?;
    let second = add_output(owner, "empty", 1, file)?;
    Ok(Pair { first, second })
}

pub(crate) fn add_state(
    owner: VastModule,
    width: i64,
    depth: i64,
    address: i64,
    file: &mut VastFile,
) -> Result<State, ExampleFault>
    requires owner { OwnsModule file.old owner }
    requires width { pos 1 ≤ℤ width }
    requires depth { pos 1 ≤ℤ depth }
    requires address { pos 1 ≤ℤ address }
    requires fits { address ≤ℤ pos 62 }
    ensures words { IfOk result (λ s. OwnsExpr file.new s.words) }
    ensures head { IfOk result (λ s. OwnsExpr file.new s.head) }
    ensures tail { IfOk result (λ s. OwnsExpr file.new s.tail) }
    ensures writes { IfOk result (λ s. OwnsExpr file.new s.writes) }
    ensures reads { IfOk result (λ s. OwnsExpr file.new s.reads) }
    ensures kept { Keeps file.old file.new }
{
    let words = add_words(owner, width, depth, file)?;
    let pointers = add_pair(owner, address + 1, "head", "tail", file)?;
    let strobes = add_pair(owner, 1, "writes", "reads", file)?;
    Ok(State {
        words,
        head: pointers.first,
        tail: pointers.second,
        writes: strobes.first,
        reads: strobes.second,
    })
}

/// Variables of so many bits.
fn add_pair(
    owner: VastModule,
    width: i64,
    first: &str,
    second: &str,
    file: &mut VastFile,
) -> Result<Pair, ExampleFault>
    requires owner { OwnsModule file.old owner }
    requires width { pos 1 ≤ℤ width }
    ensures first { IfOk result (λ p. OwnsExpr file.new p.first) }
    ensures second { IfOk result (λ p. OwnsExpr file.new p.second) }
    ensures kept { Keeps file.old file.new }
{
    let bits = make_bits(width, file)?;
    let first = declare_logic(owner, first, bits, file)?;
    let second = declare_logic(owner, second, bits, file)?;
    Ok(Pair { first, second })
}

/// The array of the words.
fn add_words(
    owner: VastModule,
    width: i64,
    depth: i64,
    file: &mut VastFile,
) -> Result<Expr, ExampleFault>
    requires owner { OwnsModule file.old owner }
    requires width { pos 1 ≤ℤ width }
    requires depth { pos 1 ≤ℤ depth }
    ensures answer { IfOk result (λ e. OwnsExpr file.new e) }
    ensures kept { Keeps file.old file.new }
{
    let memory = make_memory(width, depth, file)?;
    declare_logic(owner, "words", memory, file)
}

/// The type of the array.
fn make_memory(width: i64, depth: i64, file: &mut VastFile) -> Result<VastDataType, ExampleFault>
    requires width { pos 1 ≤ℤ width }
    requires depth { pos 1 ≤ℤ depth }
    ensures answer { IfOk result (λ t. OwnsType file.new t) }
    ensures kept { Keeps file.old file.new }
{
    let word = make_bits(width, file)?;
    Ok(file.make_unpacked_array_type(word, &[depth])?)
}
