// What is audited, and the end of the page.
use cards::card::counted;
use file_words::file::read_file_name;
use plaintext::name::say_escaped;
use plaintext::template::say_part;
use plaintext::text::say;
use std::rt::HostRuntime;
use tokens::output::Output;

fn heading_of(file: usize) -> &'static [u8] {
    match file {
        0 => b"  last session's metadata:  ",
        1 => b"  the stored change log:    ",
        2 => b"  this session's metadata:  ",
        _ => b"",
    }
}

// One of the three files. Of metadata as JSON it is said how much of it is not held.
pub fn say_file(rt: HostRuntime, output: &mut Output, line: &[u8], file: usize, skipped: usize) {
    let mut name = io::buffer();
    let len = read_file_name(rt, line, file, &mut name);
    say(output, heading_of(file));
    say_escaped(output, &name[..len], len);
    if skipped > 0 {
        let template = b" (outermost members that are not held: %0)";
        say_part(output, template, 0, 0, counted(skipped, 0));
    }
    say(output, b"\n");
}

pub fn say_title(output: &mut Output) {
    say(output, b"AUDIT OF A SESSION\n\n");
}

pub fn say_signatures(output: &mut Output) {
    say(
        output,
        b"\nWhat the names of theorems stand for is in docs/THEOREMS.md, and what all of them rest on in docs/TRUST.md.\n\
        \n  date: ____________________   audited by: ________________________________________\n",
    );
}
