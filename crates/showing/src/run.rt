//! The program: a page on standard input, and its lines on standard output.
use crate::first::first_bytes;
use crate::show::show;

/// The bytes on standard input that are read as a page.
pub fn page_in(rt: &HostRuntime) -> anyhow::Result<Vec<u8>> {
    Ok(first_bytes(rt.alloc(), rt.stdin().lock())?)
}

/// Shows the page on standard input, or why it is none.
pub fn run(rt: &HostRuntime) -> anyhow::Result<()> {
    let page = page_in(rt)?;
    rt.print(show(rt.alloc(), page.as_slice())?)?;
    Ok(())
}
