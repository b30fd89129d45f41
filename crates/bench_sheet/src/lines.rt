use answers::Numbers;
use std::io;

// Writes the line of a case: whether the numbers found are the expected ones, what was done, and the numbers found.
pub(crate) fn report(
    rt: &impl Print,
    what: &str,
    found: Numbers,
    expected: Numbers,
) -> io::Result<()> {
    let word = if found == expected { "ok" } else { "WRONG" };
    let Numbers {
        verdict,
        v0,
        v1,
        v2,
        v3,
    } = found;
    println!(rt; "{word} {what}: {verdict} {v0} {v1} {v2} {v3}")
}
