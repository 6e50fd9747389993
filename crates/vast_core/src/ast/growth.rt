//! The one growth of the arenas: nodes that come, and the entry of a list that names them.

ghost use Rattle.std.specs.Prelude.{◌≡◌, ◌-◌, ◌<◌, OnOk, OnErr, length, map, vec_capacity, vec_len};
ghost use Rattle.vast_core.specs.Records.{module_record, changed_at, with_listed_port, with_listed_parameter, with_listed_member, with_listed_name};
ghost use Rattle.vast_core.specs.Nests.{nest_record, function_record};
ghost use Rattle.vast_core.specs.Functions.{with_listed_variable};
ghost use Rattle.vast_core.specs.Containers.{StatementEnters, ElseIfEnters, ElseEnters, CaseArmEnters, MemberEnters, with_entry};
ghost use Rattle.vast_core.specs.Internal.Containers.{with_change, listed_modules, listed_nests, listed_functions, listed_items, listed_detached, GrowthSound, HasRoom, after_growth};
ghost use Rattle.vast_core.specs.Internal.Arrivals.{entry_of, change_of, listing_of, fresh_of, ListingThere};
ghost use Rattle.vast_core.specs.Growth.{GrowsBy};
ghost use Rattle.vast_core.specs.View.{bench};

use crate::ast::Ast;
use crate::ast::arrivals::{Node, Terms, settle_block, settle_node, settle_terms};
use crate::ast::detached::detached_left;
use crate::handle::{ModulePort, VastFunction, VastModule, VastStatementBlock};
use crate::node::{
    CaseArm, ElseIf, FileItem, Function, FunctionVariable, Member, Module, Nest, ParameterPort,
    Statement,
};
use std::alloc::AllocError;

/// A new entry of a container.
#[derive(Drop)]
pub(crate) enum Entry {
    Statement(Statement),
    ElseIf(ElseIf),
    Else(VastStatementBlock),
    CaseArm(CaseArm),
    Member(Member),
}

/// A new entry of a module; a name is taken from then on.
#[derive(Drop)]
pub(crate) enum ModuleEntry<'a> {
    Parameter(ParameterPort),
    Port(ModulePort, &'a str),
    Member(Member, Option<&'a str>),
}

/// The list that gains an entry, with the entry.
#[derive(Drop)]
pub(crate) enum Place<'a> {
    Nowhere,
    File(FileItem),
    Module(VastModule, ModuleEntry<'a>),
    /// Whether the variable is a local; else it is an input.
    Function(VastFunction, bool, FunctionVariable),
    /// Into the container of this index.
    Nest(usize, Entry),
    /// The block is the file's detached one from then on.
    Detached(VastStatementBlock),
}

impl Nest {
    fn add_statement(&mut self, statement: Statement) -> Result<(), AllocError>
        ensures ok { OnOk result
            (nest_record self.new
            ≡ with_entry (StatementEnters statement) (nest_record self.old)) }
        ensures err { OnErr result (nest_record self.new ≡ nest_record self.old) }
    {
        if let Nest::Block(statements) = self {
            // Most blocks hold one statement, so the first takes no more room than its own.
            if statements.is_empty() {
                statements.reserve_exact(1)?;
            }
            statements.push(statement)?;
        }
        Ok(())
    }

    fn add_else_if(&mut self, arm: ElseIf) -> Result<(), AllocError>
        ensures ok { OnOk result
            (nest_record self.new ≡ with_entry (ElseIfEnters arm) (nest_record self.old)) }
        ensures err { OnErr result (nest_record self.new ≡ nest_record self.old) }
    {
        if let Nest::Conditional(node) = self {
            node.else_ifs.push(arm)?;
        }
        Ok(())
    }

    fn add_else(&mut self, block: VastStatementBlock)
        ensures { nest_record self.new ≡ with_entry (ElseEnters block) (nest_record self.old) }
    {
        if let Nest::Conditional(node) = self {
            node.otherwise = Some(block);
        }
    }

    fn add_case_arm(&mut self, arm: CaseArm) -> Result<(), AllocError>
        ensures ok { OnOk result
            (nest_record self.new ≡ with_entry (CaseArmEnters arm) (nest_record self.old)) }
        ensures err { OnErr result (nest_record self.new ≡ nest_record self.old) }
    {
        if let Nest::Case(node) = self {
            node.arms.push(arm)?;
        }
        Ok(())
    }

    fn add_member(&mut self, member: Member) -> Result<(), AllocError>
        ensures ok { OnOk result
            (nest_record self.new
            ≡ with_entry (MemberEnters member) (nest_record self.old)) }
        ensures err { OnErr result (nest_record self.new ≡ nest_record self.old) }
    {
        if let Nest::Loop(node) = self {
            node.members.push(member)?;
        }
        Ok(())
    }

    /// Adds the entry, or changes nothing.
    fn enter(&mut self, entry: Entry) -> Result<(), AllocError>
        ensures ok { OnOk result
            (nest_record self.new ≡ with_entry (entry_of entry) (nest_record self.old)) }
        ensures err { OnErr result (nest_record self.new ≡ nest_record self.old) }
    {
        match entry {
            Entry::Statement(statement) => self.add_statement(statement),
            Entry::ElseIf(arm) => self.add_else_if(arm),
            Entry::Else(block) => {
                self.add_else(block);
                Ok(())
            }
            Entry::CaseArm(arm) => self.add_case_arm(arm),
            Entry::Member(member) => self.add_member(member),
        }
    }
}

impl Module {
    fn enter_header(&mut self, parameter: ParameterPort) -> Result<(), AllocError>
        ensures ok { OnOk result
            (module_record self.new
            ≡ with_listed_parameter parameter (module_record self.old)) }
        ensures err { OnErr result (module_record self.new ≡ module_record self.old) }
    {
        self.parameters.push(parameter)?;
        Ok(())
    }

    /// Lists the port and takes its name, or changes nothing.
    fn enter_port(&mut self, port: ModulePort, name: &str) -> Result<(), AllocError>
        ensures ok { OnOk result
            (module_record self.new ≡ with_listed_port port name.now (module_record self.old)) }
        ensures err { OnErr result (module_record self.new ≡ module_record self.old) }
    {
        self.ports.reserve(1)?;
        self.names.enter(name)?;
        self.ports.push(port).unwrap();
        Ok(())
    }

    fn push_member(&mut self, member: Member) -> Result<(), AllocError>
        ensures ok { OnOk result
            (module_record self.new ≡ with_listed_member member (module_record self.old)) }
        ensures err { OnErr result (module_record self.new ≡ module_record self.old) }
    {
        self.members.push(member)?;
        Ok(())
    }

    /// Appends the member and takes the name, or changes nothing.
    fn enter_member(&mut self, member: Member, name: &str) -> Result<(), AllocError>
        ensures ok { OnOk result
            (module_record self.new
            ≡ with_listed_name member name.now (module_record self.old)) }
        ensures err { OnErr result (module_record self.new ≡ module_record self.old) }
    {
        self.members.reserve(1)?;
        self.names.enter(name)?;
        self.members.push(member).unwrap();
        Ok(())
    }

    /// Adds the entry and takes its name, or changes nothing.
    #[inline(always)]
    fn enter(&mut self, entry: ModuleEntry<'_>) -> Result<(), AllocError>
        ensures ok { OnOk result
            (module_record self.new ≡ with_change (change_of entry.entry) (module_record self.old)) }
        ensures err { OnErr result (module_record self.new ≡ module_record self.old) }
    {
        match entry {
            ModuleEntry::Parameter(parameter) => self.enter_header(parameter),
            ModuleEntry::Port(port, name) => self.enter_port(port, name),
            ModuleEntry::Member(member, name) => match name {
                Some(name) => self.enter_member(member, name),
                None => self.push_member(member),
            },
        }
    }
}

fn enter_nest(nests: &mut Vec<Nest>, place: usize, entry: Entry) -> Result<(), AllocError>
    requires { place < length nests.old.items }
    ensures ok { OnOk result
        (map nest_record nests.new.items
        ≡ changed_at place (with_entry (entry_of entry)) (map nest_record nests.old.items)) }
    ensures err { OnErr result (map nest_record nests.new.items ≡ map nest_record nests.old.items) }
    ensures room { vec_capacity nests.new - vec_len nests.new
        ≡ vec_capacity nests.old - vec_len nests.old }
{
    let target = &mut nests[place];
    target.enter(entry)
}

#[inline(always)]
pub(crate) fn enter_module(
    modules: &mut Vec<Module>,
    owner: VastModule,
    entry: ModuleEntry<'_>,
) -> Result<(), AllocError>
    requires { owner.id.index < length modules.old.items }
    ensures ok { OnOk result
        (map module_record modules.new.items
        ≡ changed_at owner.id.index (with_change (change_of entry.entry))
        (map module_record modules.old.items)) }
    ensures err { OnErr result
        (map module_record modules.new.items ≡ map module_record modules.old.items) }
    ensures room { vec_capacity modules.new - vec_len modules.new
        ≡ vec_capacity modules.old - vec_len modules.old }
{
    let target = &mut modules[owner.id.index];
    target.enter(entry)
}

fn enter_function(
    functions: &mut Vec<Function>,
    owner: VastFunction,
    local: bool,
    variable: FunctionVariable,
) -> Result<(), AllocError>
    requires { owner.id.index < length functions.old.items }
    ensures ok { OnOk result
        (map function_record functions.new.items
        ≡ changed_at owner.id.index (with_listed_variable local variable)
        (map function_record functions.old.items)) }
    ensures err { OnErr result
        (map function_record functions.new.items ≡ map function_record functions.old.items) }
    ensures room { vec_capacity functions.new - vec_len functions.new
        ≡ vec_capacity functions.old - vec_len functions.old }
{
    let target = &mut functions[owner.id.index];
    target.enter_variable(local, variable)
}

/// Adds the entry where it goes, or changes nothing.
#[inline(always)]
fn enter(
    modules: &mut Vec<Module>,
    nests: &mut Vec<Nest>,
    functions: &mut Vec<Function>,
    items: &mut Vec<FileItem>,
    detached: &mut Option<VastStatementBlock>,
    place: Place<'_>,
) -> Result<(), AllocError>
    requires { ListingThere (length modules.old.items) (length nests.old.items)
        (length functions.old.items) (listing_of place) }
    ensures modules { OnOk result
        (map module_record modules.new.items
        ≡ listed_modules (listing_of place.entry) (map module_record modules.old.items)) }
    ensures nests { OnOk result
        (map nest_record nests.new.items
        ≡ listed_nests (listing_of place.entry) (map nest_record nests.old.items)) }
    ensures functions { OnOk result
        (map function_record functions.new.items
        ≡ listed_functions (listing_of place.entry) (map function_record functions.old.items)) }
    ensures items { OnOk result
        (items.new.items
        ≡ listed_items (listing_of place.entry) items.old.items) }
    ensures detached { OnOk result (detached.new ≡ listed_detached (listing_of place.entry) detached.old) }
    ensures err_modules { OnErr result
        (map module_record modules.new.items ≡ map module_record modules.old.items) }
    ensures err_nests { OnErr result
        (map nest_record nests.new.items ≡ map nest_record nests.old.items) }
    ensures err_functions { OnErr result
        (map function_record functions.new.items ≡ map function_record functions.old.items) }
    ensures err_items { OnErr result (items.new.items ≡ items.old.items) }
    ensures err_detached { OnErr result (detached.new ≡ detached.old) }
    ensures modules_room { vec_capacity modules.new - vec_len modules.new
        ≡ vec_capacity modules.old - vec_len modules.old }
    ensures nests_room { vec_capacity nests.new - vec_len nests.new
        ≡ vec_capacity nests.old - vec_len nests.old }
    ensures functions_room { vec_capacity functions.new - vec_len functions.new
        ≡ vec_capacity functions.old - vec_len functions.old }
{
    match place {
        Place::Nowhere => Ok(()),
        Place::File(item) => {
            items.push(item)?;
            Ok(())
        }
        Place::Module(owner, entry) => enter_module(modules, owner, entry),
        Place::Function(owner, local, variable) => {
            enter_function(functions, owner, local, variable)
        }
        Place::Nest(index, entry) => enter_nest(nests, index, entry),
        Place::Detached(block) => {
            *detached = Some(block);
            Ok(())
        }
    }
}

impl Ast {
    /// Adds the entry and the nodes, for which there is room, or changes nothing.
    #[inline(always)]
    fn admit(
        &mut self,
        place: Place<'_>,
        terms: Terms,
        node: Node,
        block: bool,
    ) -> Result<(), AllocError>
        requires sound { GrowthSound (bench self.old) (listing_of place) (fresh_of terms node block) }
        requires room { HasRoom self.old (fresh_of terms node block) }
        ensures { GrowsBy self.old self.new result
            (after_growth (listing_of place.entry) (fresh_of terms node block)) }
    {
        let mut detached = detached_left(node.takes_detached(), self.detached);
        let entered = enter(
            &mut self.modules,
            &mut self.nests,
            &mut self.functions,
            &mut self.items,
            &mut detached,
            place,
        );
        if let Err(error) = entered {
            drop(terms);
            drop(node);
            return Err(error);
        }
        self.detached = detached;
        settle_terms(&mut self.terms, terms);
        settle_node(
            &mut self.assignments,
            &mut self.nests,
            &mut self.ports,
            &mut self.modules,
            &mut self.functions,
            &mut self.definitions,
            &mut self.artifacts,
            &mut self.instances,
            &mut self.always_blocks,
            node,
        );
        settle_block(&mut self.nests, block, self.alloc);
        Ok(())
    }

    /// Adds an entry to a list, and the nodes that come with it: expressions and types, one of another arena, and last an
    /// empty block, if one is asked for.
    ///
    /// # Errors
    /// `AllocError` where a growth was refused; nothing changed.
    #[inline(always)]
    pub(crate) fn grow(
        &mut self,
        place: Place<'_>,
        terms: Terms,
        node: Node,
        block: bool,
    ) -> Result<(), AllocError>
        requires { GrowthSound (bench self.old) (listing_of place) (fresh_of terms node block) }
        ensures { GrowsBy self.old self.new result
            (after_growth (listing_of place.entry) (fresh_of terms node block)) }
    {
        match self.make_room(&terms, &node, block) {
            Ok(()) => self.admit(place, terms, node, block),
            Err(error) => {
                drop(place);
                drop(terms);
                drop(node);
                Err(error)
            }
        }
    }
}
