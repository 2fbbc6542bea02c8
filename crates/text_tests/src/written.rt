use ctss_io::MemorySink;
use std::alloc::Global;
use std::process::Abort;
use std::test::Fail;
use text_writer::{Text, write_text};

/// A sink to which a text was written, of which each put takes up to 4096 bytes.
pub fn written<T: Text>(rt: &impl Abort, alloc: Global, text: &T) -> Result<MemorySink, Fail> {
    let mut sink = MemorySink::new(alloc, 5_000_000, 4096, &[])?;
    assert!(rt; write_text(alloc, &mut sink, text).is_ok());
    Ok(sink)
}
