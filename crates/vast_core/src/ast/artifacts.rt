//! Definitions, artifacts and instantiations, which members are made of.

ghost use Rattle.std.specs.Prelude.{◌≡◌, All, Some, slice_get};
ghost use Rattle.vast_core.specs.Records.{instance_record, BlankArtifact, CommentArtifact, InlineArtifact, MacroArtifact};
ghost use Rattle.vast_core.specs.Bench.{OwnsType, OwnsMacroRef, OwnsDef, OwnsComment, OwnsInline, OwnsMacroStatement, OwnsInstantiation};
ghost use Rattle.vast_core.specs.WrittenKinds.{HasValue};
ghost use Rattle.vast_core.specs.Sound.{ArtifactSound, ConnectionSound};
ghost use Rattle.vast_core.specs.Growth.{Grows};
ghost use Rattle.vast_core.specs.Artifacts.{next_def, with_definition, next_artifact, with_artifact, next_instantiation, with_instance};
ghost use Rattle.vast_core.specs.View.{bench};

use crate::ast::Ast;
use crate::ast::arrivals::{Node, Terms};
use crate::ast::growth::Place;
use crate::handle::{
    BlankLine, Comment, Def, Id, InlineVerilogStatement, Instantiation, MacroRef, MacroStatement,
    VastDataType,
};
use crate::node::{Artifact, Connection, Definition, Instance};
use std::alloc::AllocError;
use vast_literal::DataKind;
use vast_names::Text;

impl Ast {
    /// Adds a definition, from which parameters take kind, type and name.
    ///
    /// # Errors
    /// `AllocError` where a growth was refused; nothing changed.
    #[tactic(auto, using(crate::proofs::EntersRecords::enters_records))]
    pub fn push_def(
        &mut self,
        name: &str,
        kind: DataKind,
        data_type: VastDataType,
    ) -> Result<Def, AllocError>
        requires { OwnsType (bench self.old) data_type }
        ensures { Grows self.old self.new result next_def
            (with_definition (record { name = name.now; kind = kind; data_type = data_type })) }
    {
        let name = Text::new(self.alloc, name)?;
        let id = self.next_definition();
        self.grow(
            Place::Nowhere,
            Terms::Nothing,
            Node::Definition(Definition {
                name,
                kind,
                data_type,
            }),
            false,
        )?;
        Ok(Def { id })
    }

    #[tactic(auto, using(crate::proofs::EntersRecords::enters_records))]
    fn push_artifact(&mut self, artifact: Artifact) -> Result<Id, AllocError>
        requires { ArtifactSound (bench self.old) artifact }
        ensures { Grows self.old self.new result next_artifact
            (with_artifact artifact) }
    {
        let id = self.next_artifact();
        self.grow(
            Place::Nowhere,
            Terms::Nothing,
            Node::Artifact(artifact),
            false,
        )?;
        Ok(id)
    }

    /// Adds a blank line, which no list holds yet.
    ///
    /// # Errors
    /// `AllocError` where a growth was refused; nothing changed.
    pub fn push_blank_line(&mut self) -> Result<BlankLine, AllocError>
        ensures { Grows self.old self.new result (λ b. record { id = next_artifact b })
            (with_artifact BlankArtifact) }
    {
        let id = self.push_artifact(Artifact::BlankLine)?;
        Ok(BlankLine { id })
    }

    /// Adds a comment, which no list holds yet.
    ///
    /// # Errors
    /// `AllocError` where a growth was refused; nothing changed.
    pub fn push_comment(&mut self, text: &str) -> Result<Comment, AllocError>
        ensures { Grows self.old self.new result (λ b. record { id = next_artifact b })
            (with_artifact (CommentArtifact text.now)) }
    {
        let text = Text::new(self.alloc, text)?;
        let id = self.push_artifact(Artifact::Comment(text))?;
        Ok(Comment { id })
    }

    /// Adds a text that is written as it is, which no list holds yet.
    ///
    /// # Errors
    /// `AllocError` where a growth was refused; nothing changed.
    pub fn push_inline(&mut self, text: &str) -> Result<InlineVerilogStatement, AllocError>
        ensures { Grows self.old self.new result (λ b. record { id = next_artifact b })
            (with_artifact (InlineArtifact text.now)) }
    {
        let text = Text::new(self.alloc, text)?;
        let id = self.push_artifact(Artifact::Inline(text))?;
        Ok(InlineVerilogStatement { id })
    }

    /// Adds the use of a macro as a member, with a semicolon or without, which no list holds yet.
    ///
    /// # Errors
    /// `AllocError` where a growth was refused; nothing changed.
    pub fn push_macro_statement(
        &mut self,
        call: MacroRef,
        semicolon: bool,
    ) -> Result<MacroStatement, AllocError>
        requires { OwnsMacroRef (bench self.old) call }
        ensures { Grows self.old self.new result (λ b. record { id = next_artifact b })
            (with_artifact (MacroArtifact call semicolon)) }
    {
        let id = self.push_artifact(Artifact::MacroStatement(call, semicolon))?;
        Ok(MacroStatement { id })
    }

    /// Adds an instantiation of a module, which no list holds yet. Each parameter has a value.
    ///
    /// # Errors
    /// `AllocError` where a growth was refused; nothing changed.
    #[tactic(auto, using(crate::proofs::EntersRecords::enters_records))]
    pub fn push_instantiation(
        &mut self,
        module_name: &str,
        instance_name: &str,
        parameters: Vec<Connection>,
        connections: Vec<Connection>,
    ) -> Result<Instantiation, AllocError>
        requires parameters { All (ConnectionSound (bench self.old))
            parameters.items }
        requires values { All HasValue parameters.items }
        requires connections { All (ConnectionSound (bench self.old))
            connections.items }
        ensures { Grows self.old self.new result next_instantiation
            (with_instance
            (record {
              module_name = module_name.now;
              instance_name = instance_name.now;
              parameters = parameters.items;
              connections = connections.items;
            })) }
    {
        let module_name = String::from_str(self.alloc, module_name)?;
        let instance_name = String::from_str(self.alloc, instance_name)?;
        let id = self.next_instance();
        self.grow(
            Place::Nowhere,
            Terms::Nothing,
            Node::Instance(Instance {
                module_name,
                instance_name,
                parameters,
                connections,
            }),
            false,
        )?;
        Ok(Instantiation { id })
    }

    /// A definition. Its type is the file's.
    pub fn definition(&self, d: Def) -> &Definition
        requires { OwnsDef (bench self.now) d }
        ensures there { slice_get (bench self.now).definitions d.id.index
            ≡ Some result.now }
        ensures data_type { OwnsType (bench self.now) result.now.data_type }
    {
        &self.definitions[d.id.index]
    }

    /// The text of a comment.
    pub fn comment_text(&self, a: Comment) -> &str
        requires { OwnsComment (bench self.now) a }
        ensures { slice_get (bench self.now).artifacts a.id.index
            ≡ Some (CommentArtifact result.now) }
    {
        match self.artifact_at(a.id.index) {
            Some(Artifact::Comment(text)) => text.as_str(),
            _ => unreachable!(),
        }
    }

    /// The text that is written as it is.
    pub fn inline_text(&self, a: InlineVerilogStatement) -> &str
        requires { OwnsInline (bench self.now) a }
        ensures { slice_get (bench self.now).artifacts a.id.index
            ≡ Some (InlineArtifact result.now) }
    {
        match self.artifact_at(a.id.index) {
            Some(Artifact::Inline(text)) => text.as_str(),
            _ => unreachable!(),
        }
    }

    /// The macro that is used, and whether a semicolon follows. The macro is the file's.
    pub fn macro_statement(&self, a: MacroStatement) -> (MacroRef, bool)
        requires { OwnsMacroStatement (bench self.now) a }
        ensures there { slice_get (bench self.now).artifacts a.id.index
            ≡ Some (MacroArtifact result.0 result.1) }
        ensures call { OwnsMacroRef (bench self.now) result.0 }
    {
        match self.artifact_at(a.id.index) {
            Some(Artifact::MacroStatement(call, semicolon)) => (*call, *semicolon),
            _ => unreachable!(),
        }
    }

    /// An instantiation. What it gives to parameters and ports is the file's.
    pub fn instance(&self, i: Instantiation) -> &Instance
        requires { OwnsInstantiation (bench self.now) i }
        ensures there { slice_get (bench self.now).instances i.id.index
            ≡ Some (instance_record result.now) }
        ensures parameters { All (ConnectionSound (bench self.now))
            result.now.parameters.items }
        ensures connections { All (ConnectionSound (bench self.now))
            result.now.connections.items }
    {
        &self.instances[i.id.index]
    }
}
