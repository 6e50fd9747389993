//! What a file holds of its modules, ports and names, as in the crate `xlsynth-vast`.

ghost use Rattle.std.specs.Prelude.{◌≡◌, All, Some, IfOk, length, string_bytes};
ghost use Rattle.vast_core.specs.Bench.{OwnsModule, OwnsPort, OwnsType, OwnsLogicRef};
ghost use Rattle.xlsynth_vast.specs.Inspections.{members_in, ports_in, ports_towards, name_at, direction_at, type_at, logic_ref_at, width_at, name_of_ref};

use crate::file::VastFile;
use std::alloc::AllocError;
use vast_core::{ExprNode, LogicRef, ModulePort, ModulePortDirection, VastDataType, VastModule};

impl VastFile {
    /// How many members the module has: where its next member will stand.
    pub fn module_member_count(&self, owner: VastModule) -> usize
        requires { OwnsModule self.now owner }
        ensures { result ≡ length (members_in self.now owner) }
    {
        self.ast.member_count(owner)
    }

    /// The module's ports, in order.
    ///
    /// # Errors
    /// `AllocError` where memory for the list was refused.
    pub fn module_ports(&self, owner: VastModule) -> Result<Vec<ModulePort>, AllocError>
        requires { OwnsModule self.now owner }
        ensures ports { IfOk result (λ ports. ports.items ≡ ports_in self.now owner) }
        ensures owned { IfOk result (λ ports. All (OwnsPort self.now) ports.items) }
    {
        let module = self.ast.module(owner);
        module.ports.iter().copied().collect(self.ast.allocator())
    }

    fn ports_towards(
        &self,
        owner: VastModule,
        direction: ModulePortDirection,
    ) -> Result<Vec<ModulePort>, AllocError>
        requires { OwnsModule self.now owner }
        ensures ports { IfOk result
            (λ ports. ports.items ≡ ports_towards direction self.now owner) }
        ensures owned { IfOk result (λ ports. All (OwnsPort self.now) ports.items) }
    {
        let mut ports = Vec::new(self.ast.allocator());
        for port in &self.ast.module(owner).ports {
            if self.ast.port(*port).direction == direction {
                ports.push(*port)?;
            }
        }
        Ok(ports)
    }

    /// The module's inputs, in order.
    ///
    /// # Errors
    /// `AllocError` where memory for the list was refused.
    pub fn module_input_ports(&self, owner: VastModule) -> Result<Vec<ModulePort>, AllocError>
        requires { OwnsModule self.now owner }
        ensures ports { IfOk result
            (λ ports. ports.items
            ≡ ports_towards ModulePortDirection.Input self.now owner) }
        ensures owned { IfOk result (λ ports. All (OwnsPort self.now) ports.items) }
    {
        self.ports_towards(owner, ModulePortDirection::Input)
    }

    /// The module's outputs, in order.
    ///
    /// # Errors
    /// `AllocError` where memory for the list was refused.
    pub fn module_output_ports(&self, owner: VastModule) -> Result<Vec<ModulePort>, AllocError>
        requires { OwnsModule self.now owner }
        ensures ports { IfOk result
            (λ ports. ports.items
            ≡ ports_towards ModulePortDirection.Output self.now owner) }
        ensures owned { IfOk result (λ ports. All (OwnsPort self.now) ports.items) }
    {
        self.ports_towards(owner, ModulePortDirection::Output)
    }

    /// The port's direction.
    pub fn port_direction(&self, port: ModulePort) -> ModulePortDirection
        requires { OwnsPort self.now port }
        ensures { direction_at self.now port ≡ Some result }
    {
        self.ast.port(port).direction
    }

    /// The port's name.
    ///
    /// # Errors
    /// `AllocError` where memory for the name was refused.
    pub fn port_name(&self, port: ModulePort) -> Result<String, AllocError>
        requires { OwnsPort self.now port }
        ensures { IfOk result (λ name. name_at self.now port ≡ Some (string_bytes name)) }
    {
        String::from_str(self.ast.allocator(), self.ast.port(port).name.as_str())
    }

    /// The port's type, which is the file's.
    pub fn port_data_type(&self, port: ModulePort) -> VastDataType
        requires { OwnsPort self.now port }
        ensures data_type { type_at self.now port ≡ Some result }
        ensures owned { OwnsType self.now result }
    {
        self.ast.port(port).data_type
    }

    /// The bits of the port's type, with those of all elements of an array; 0 where they aren't known or are more than
    /// an `i64` can be. It takes no memory.
    #[tactic(auto, using(crate::proofs::Inspected::width_refused))]
    pub fn port_width(&self, port: ModulePort) -> i64
        requires { OwnsPort self.now port }
        ensures { width_at self.now port ≡ Some result }
    {
        let data_type = self.port_data_type(port);
        match self.ast.flat_bit_count(data_type) {
            Ok(bits) => bits,
            Err(_) => 0,
        }
    }

    /// The port's name as an expression, which is the file's.
    pub fn port_logic_ref(&self, port: ModulePort) -> LogicRef
        requires { OwnsPort self.now port }
        ensures logic_ref { logic_ref_at self.now port ≡ Some result }
        ensures owned { OwnsLogicRef self.now result }
    {
        self.ast.port(port).logic_ref
    }

    /// The name that the expression is.
    ///
    /// # Errors
    /// `AllocError` where memory for the name was refused.
    #[tactic(auto, using(vast_core::proofs::Laws::conversions))]
    pub fn logic_ref_name(&self, logic_ref: LogicRef) -> Result<String, AllocError>
        requires { OwnsLogicRef self.now logic_ref }
        ensures { IfOk result
            (λ name. name_of_ref self.now logic_ref ≡ Some (string_bytes name)) }
    {
        let ExprNode::Name(name, _) = self.ast.expr(logic_ref.to_expr()) else {
            unreachable!()
        };
        String::from_str(self.ast.allocator(), name.as_str())
    }
}
