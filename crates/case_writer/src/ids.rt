// Ids, as those in the buffer of a walk.
use tokens::number::put_i64;
use tokens::output::Output;

pub fn put_ids(output: &mut Output, ids: &[i64]) {
    for &id in ids {
        put_i64(output, id);
    }
}
