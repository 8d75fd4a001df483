//! The classes in class order.

ghost use Rattle.std.specs.Prelude.{◌≡◌};
ghost use Rattle.cf_layout.specs.Layout.{place_of, same_class, computed_classes};

use rv_inst::Class;

/// The classes that units or sidings compute, in class order.
pub const CLASSES: [Class; 9] = [
    Class::Add,
    Class::Logic,
    Class::Shift,
    Class::Compare,
    Class::Branch,
    Class::Jump,
    Class::Memory,
    Class::Mul,
    Class::Div,
];

/// The index of the class in class order; classes that neither units nor sidings compute come last.
#[inline(always)]
pub(crate) fn place(class: Class) -> usize
    ensures { result ≡ place_of class }
{
    match class {
        Class::Add => 0,
        Class::Logic => 1,
        Class::Shift => 2,
        Class::Compare => 3,
        Class::Branch => 4,
        Class::Jump => 5,
        Class::Memory => 6,
        Class::Mul => 7,
        Class::Div => 8,
        Class::Serial => 9,
        Class::Free => 10,
    }
}

/// Whether the two are the same class.
pub(crate) fn is_same(a: Class, b: Class) -> bool
    ensures { result ≡ same_class a b }
{
    place(a) == place(b)
}
