// Page lists, as the manual page has them.
use nr_page::Select;
use std::test::Fail;

/// A page list, a page, and whether it is selected, as the manual has it.
static SELECTED: [(&[u8], i64, bool); 29] = [
    (b"1,3-5,9-", 1, true),
    (b"1,3-5,9-", 2, false),
    (b"1,3-5,9-", 3, true),
    (b"1,3-5,9-", 4, true),
    (b"1,3-5,9-", 5, true),
    (b"1,3-5,9-", 6, false),
    (b"1,3-5,9-", 8, false),
    (b"1,3-5,9-", 9, true),
    (b"1,3-5,9-", 100, true),
    (b"1,3-5,9-", 0, false),
    (b"1,3-5,9-", -1, false),
    (b"-3", 3, true),
    (b"-3", 4, false),
    (b"-3", 0, true),
    (b"-3", -7, true),
    (b"-3", i64::MIN, true),
    (b"-0", 1, false),
    (b"3-", 2, false),
    (b"3-", i64::MAX, true),
    (b"3-3", 2, false),
    (b"3-3", 3, true),
    (b"3-3", 4, false),
    (b"007", 7, true),
    (b"000000000000000000000002-3", 2, true),
    (b"2147483647", 2_147_483_647, true),
    (b"2147483647", 2_147_483_648, false),
    (b"5,5,1", 1, true),
    (b"5-9,1-6", 5, true),
    (b"0", 0, true),
];

/// Whether a page list selects the page; `None` where the text is no page list.
fn selects(text: &[u8], page: i64) -> Option<bool> {
    match Select::parse(text) {
        Ok(select) => Some(select.has(page)),
        Err(_) => None,
    }
}

#[test]
fn selects_listed_pages(rt: HostRuntime) {
    for (text, page, selected) in &SELECTED {
        assert!(rt;
            selects(text, *page) == Some(*selected),
            "page {page} of {text:?}"
        );
    }
}

/// Texts that are no page list.
static REFUSED: [&[u8]; 24] = [
    b"",
    b"-",
    b"5-3",
    b"1,,2",
    b"1,",
    b",1",
    b",",
    b"1,-",
    b"+1",
    b"-+1",
    b"1--2",
    b"--1",
    b"1-2-3",
    b" 1",
    b"1 ",
    b"1, 2",
    b"1;2",
    b"x",
    b"0x1",
    b"1\n",
    b"2147483648",
    b"1-2147483648",
    b"-2147483648",
    b"99999999999999999999-",
];

#[test]
fn refuses_other_texts(rt: HostRuntime) {
    for text in &REFUSED {
        assert!(rt; selects(text, 1) == None, "{text:?}");
    }
}

/// 64 items are taken, and 65 are not.
#[test]
fn takes_64_items(rt: HostRuntime) -> Result<(), Fail> {
    let mut text = Vec::new(rt.alloc());
    for _ in 0..63 {
        text.extend_from_slice(b"1,")?;
    }
    text.push(b'9')?;
    assert!(rt; selects(text.as_slice(), 9) == Some(true));
    text.extend_from_slice(b",1")?;
    assert!(rt; selects(text.as_slice(), 1) == None);
    Ok(())
}
