// Lines of numbers: each number, some, all that are left, and none.
use std::io;
use testlib_lines::numbers::{LenientNumbers, Numbers};

pub fn read(rt: &(impl Print + AllocGlobal)) -> io::Result<()> {
    let mut line = Numbers::new(rt.alloc(), "7 300 -2 5 6 8 9");
    let (first, second, third) = (
        line.number::<u8>(),
        line.number::<u8>(),
        line.number::<i32>(),
    );
    println!(rt; "numbers: {first:?}, {second:?}, {third:?}")?;
    println!(rt; "samples: {:?}", line.samples(2))?;
    println!(rt; "rest: {:?}", line.rest())?;
    let mut line = Numbers::new(rt.alloc(), "1");
    let bytes = vec![in line.alloc(); 0u8; 3]?;
    println!(rt; "memory: {} bytes", bytes.len())?;
    println!(rt; "samples past the end: {:?}", line.samples(2))?;
    println!(rt; "number past the end: {:?}", line.number::<u64>())?;
    println!(rt; "end: {:?}", line.end())?;
    println!(rt;
        "rest of 1 65536: {:?}",
        Numbers::new(rt.alloc(), "1 65536").rest()
    )?;
    println!(rt; "end of 1: {:?}", Numbers::new(rt.alloc(), "1").end())?;
    println!(rt;
        "lenient rest of 1 65536: {:?}",
        LenientNumbers::new(rt.alloc(), b"1 65536").rest(9)
    )
}
