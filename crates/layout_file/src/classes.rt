//! The names of classes in a layout file.

ghost use Rattle.std.specs.Prelude.{◌≡◌, IfSome};
ghost use Rattle.layout_file.specs.Names.{class_name, class_among, class_by_name};
ghost use Rattle.cf_layout.specs.Acceptable.{IsComputed};

use crate::format::Format;
use cf_layout::CLASSES;
use rv_inst::Class;

/// The name of the class in a file.
pub fn class_name(class: Class) -> &'static str
    ensures { result.now ≡ class_name class }
{
    match class {
        Class::Add => "add",
        Class::Logic => "logic",
        Class::Shift => "shift",
        Class::Compare => "compare",
        Class::Branch => "branch",
        Class::Jump => "jump",
        Class::Memory => "memory",
        Class::Serial => "serial",
        Class::Free => "free",
        Class::Mul => "mul",
        Class::Div => "div",
    }
}

/// The class with this name among these.
fn class_among(classes: &[Class], word: &str) -> Option<Class>
    ensures { result ≡ class_among classes.now word.now }
{
    classes
        .iter()
        .copied()
        .find(|class| class_name(*class) == word)
}

/// How many of the classes, in class order, a file of format 1 may name. `mul` and `div` come after them.
const FIRST_FORMAT: usize = 7;

/// The class of a name in a format.
#[tactic(auto, unfolding(crate::specs::Names::class_by_name))]
pub(crate) fn class_by_name(format: Format, word: &str) -> Option<Class>
    ensures class { result ≡ class_by_name format word.now }
    ensures computed { IfSome result (λ c. IsComputed c) }
{
    match format {
        Format::First => class_among(&CLASSES[..FIRST_FORMAT], word),
        Format::Second => class_among(&CLASSES, word),
    }
}
