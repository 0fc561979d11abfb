// Case 11: whether the row ranges that metadata holds are apart.
use case_reader::metadata::read_metadata;
use tokens::input::Input;
use tokens::number::put_flag;
use tokens::output::Output;

pub fn rows_apart(input: &mut Input, output: &mut Output) {
    let metadata = read_metadata(input);
    if input.is_good() {
        put_flag(output, row_ranges::rows_apart(metadata));
    }
}
