// The lines of instruction words for C: an answer as its number, the length or the word through a pointer. include/vp1_names.h declares the functions.
#![tactic(auto)]

ghost use Rattle.std.specs.Prelude.{◌≡◌};
ghost use Rattle.names.specs.Calls.{wrote, write_of, got, read_of};

// The line of a word. Whatever the answer, the length is written.
#[unsafe(no_mangle)]
pub extern "C" fn vp1_write_line(word: u32, out: &mut [u8], length: &mut u32) -> u32
    ensures { wrote result length.new out.new ≡ write_of word out.old }
{
    let x = names::write_line(word, out);
    *length = x.length;
    u32::from(x.end)
}

// The word of a line. Whatever the answer, the word is written.
#[unsafe(no_mangle)]
pub extern "C" fn vp1_read_line(text: &[u8], word: &mut u32) -> u32
    ensures { got result word.new ≡ read_of text.now }
{
    let x = names::read_line(text);
    *word = x.word;
    u32::from(x.end)
}
