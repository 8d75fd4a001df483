//! The line of an instruction that retired.
#![tactic(auto, unfolding(crate::specs::Retirement::retirement_text))]

ghost use Rattle.std.specs.Prelude.{◌≡◌, ◌+◌, ◌≤◌, ◌++◌, length};
ghost use Rattle.texts.specs.Retirement.{written_register, retirement_text};
ghost use Rattle.texts.specs.Room.{page_room};

use crate::page::Page;

impl Page {
    /// Appends the register that an instruction wrote, with its value, or `-` if it wrote none.
    fn push_written(&mut self, register: u8, value: u32)
        requires { length self.old + 12 ≤ page_room }
        ensures text { self.new ≡ self.old ++ written_register register value }
        ensures size { length self.new ≤ length self.old + 12 }
    {
        if register == 0 {
            self.push(b"-");
        } else {
            self.push_register_name(register);
            self.push(b"=");
            self.push_hex(value);
        }
    }
}

/// The line of an instruction that retired: its retirement number, its address, its word, and the register that it
/// wrote with the new value. Register 0 means none.
pub fn retirement_line(number: u64, pc: u32, word: u32, register: u8, value: u32) -> Page
    ensures { result ≡ retirement_text number pc word register value }
{
    let mut page = Page::new();
    page.push(b"retire ");
    page.push_decimal(number);
    page.push(b" ");
    page.push_hex(pc);
    page.push(b" ");
    page.push_hex(word);
    page.push(b" ");
    page.push_written(register, value);
    page.push(b"\n");
    page
}
