//! The interrupt and the caller's register.
ghost use Rattle.std.specs.Prelude.{◌≡◌, ◌↔◌, IsTrue, IsSome, None, Some};

/// What a node tells the list of elements around it: to continue with the next turn of a loop, or to leave the loop.
#[derive(Debug, Clone, Copy, PartialEq, Eq, Drop)]
pub enum Interrupt {
    Continue,
    Break,
}

/// Holds the interrupt that is set, if there is one.
#[derive(Debug, Clone, PartialEq, Eq, Drop)]
pub struct InterruptRegister {
    pub(crate) current: Option<Interrupt>,
}

impl InterruptRegister {
    ghost use Rattle.liquid_runtime.specs.meaning.Calls.{interrupt_of};

    /// Returns `true` if an interrupt is set.
    pub fn interrupted(&self) -> bool
        ensures { IsTrue result ↔ IsSome (interrupt_of self.now) }
    {
        self.current.is_some()
    }

    /// Sets this interrupt, in place of any other.
    pub fn set(&mut self, interrupt: Interrupt)
        ensures { interrupt_of self.new ≡ Some interrupt }
    {
        self.current = Some(interrupt);
    }

    /// Returns the interrupt that is set, and clears it.
    pub fn reset(&mut self) -> Option<Interrupt>
        ensures answers { result ≡ interrupt_of self.old }
        ensures leaves { interrupt_of self.new ≡ None }
    {
        self.current.take()
    }
}

/// Returns a register without an interrupt.
impl Default for InterruptRegister {
    ghost use Rattle.liquid_runtime.specs.meaning.Calls.{interrupt_of};

    ghost is_default = { λ register. interrupt_of register ≡ None };

    fn default() -> InterruptRegister {
        InterruptRegister { current: None }
    }
}

/// A type of registers: what contracts see of a register, and its first value.
///
/// Contracts see a register by its shape, which is plain data, so it may own texts, lists and maps. No
/// program makes a value of the type `Shape`. A register that owns no memory is its own shape.
pub trait Fresh: Drop {
    type Shape;

    ghost shape: { Self → Self.Shape };

    ghost fresh: { Self.Shape };

    /// The first value. It is made without an allocator, so a field that takes memory is an `Option`
    /// here, and `None`.
    fn fresh() -> Self
        ensures { shape result ≡ fresh };
}

/// A register for callers that don't need one.
impl Fresh for () {
    type Shape = ();

    ghost shape = { λ unit. unit };

    ghost fresh = { tt };

    fn fresh() {}
}

/// The interrupt, and one register of the caller's type. A sandboxed frame has its own registers.
#[derive(Drop)]
pub struct Registers<V> {
    pub interrupt: InterruptRegister,
    pub value: V,
}

impl<V: Fresh> Registers<V> {
    ghost use Rattle.liquid_runtime.specs.meaning.Calls.{fresh_registers, shaped};

    pub(crate) fn fresh() -> Registers<V>
        ensures { shaped V.shape result ≡ fresh_registers V.fresh }
    {
        Registers {
            interrupt: InterruptRegister { current: None },
            value: V::fresh(),
        }
    }
}

/// Returns no interrupt, and the register's first value.
impl<V: Fresh> Default for Registers<V> {
    ghost use Rattle.liquid_runtime.specs.meaning.Calls.{fresh_registers, shaped};

    ghost is_default = { λ registers. shaped V.shape registers ≡ fresh_registers V.fresh };

    fn default() -> Registers<V> {
        Registers::fresh()
    }
}
