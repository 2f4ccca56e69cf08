//! What is read of a history is written as it was. The lines are those of the form, worked out by hand.
use mdcc_check_histories::line_in;
use mdcc_check_print::{print_header, print_line};
use mdcc_option::Schema;
use std::test::Fail;

const HEADER: &[u8] = b"mdcc-history 1\nbound 0 1000\nbound -3 3\nstart\n";

const LINES: [&[u8]; 5] = [
    b"commit 1.1.1 write:a:0:-:00ff:10,-3 write:b/c:7:2.7.3,2.7.4:-:1,0\n",
    b"commit 9.4294967295.1 add:key:18446744073709551615:1=-4,2=1\n",
    b"read a 1 - 00ff 10,-3\n",
    b"read key 2 2.7.3,3.1.1 - 7,2\n",
    b"read c 0\n",
];

#[test]
fn lines_are_written_as_they_were_read(rt: HostRuntime) -> Result<(), Fail> {
    let schema = Schema::new(&[(0, 1000), (-3, 3)])?;
    let mut text = Vec::new(rt.alloc());
    print_header(&schema, &mut text)?;
    assert!(rt; text.as_slice() == HEADER);
    for line in LINES {
        text.clear();
        if let Ok(Some(read)) = line_in(&schema, line) {
            print_line(&read, &mut text)?;
        }
        assert!(rt; text.as_slice() == line);
    }
    Ok(())
}
