//! Texts of examples come back, in their own table.

use super::texts::back_of;

/// A text, what is shown of it, how many clusters of one column beyond ASCII and of two it has, and how many bytes stand for it: one for
/// each column, and for the places between where lines may be cut.
struct Case {
    text: &'static str,
    shown: &'static str,
    narrow: usize,
    wide: usize,
    bytes: usize,
}

/// Headings and words of manual pages, composed and decomposed.
fn rows() -> &'static [Case] {
    &[
        Case {
            text: "PŘEKLAD, PŘÍKLADY",
            shown: "PŘEKLAD, PŘÍKLADY",
            narrow: 2,
            wide: 0,
            bytes: 17,
        },
        Case {
            text: "PR\u{30c}EKLAD",
            shown: "PŘEKLAD",
            narrow: 1,
            wide: 0,
            bytes: 7,
        },
        Case {
            text: "名前 ls - 一覧",
            shown: "名\\(zb前 ls - 一\\(zb覧",
            narrow: 0,
            wide: 4,
            bytes: 22,
        },
        Case {
            text: "か\u{3099}が",
            shown: "が\\(zbが",
            narrow: 0,
            wide: 1,
            bytes: 8,
        },
        Case {
            text: "日本\n語、ls(1)は",
            shown: "日\\(zb本\\(zj\n語、\\(zbls(1)\\(zbは",
            narrow: 0,
            wide: 5,
            bytes: 32,
        },
        Case {
            text: "「日」っ\n\n日\n",
            shown: "「日」っ\n\n日\n",
            narrow: 0,
            wide: 4,
            bytes: 13,
        },
        Case {
            text: ".B 日本\n日\\fB本\\(bu日\\fR\n\\fB日",
            shown: ".B 日\\(zb本\n日\\fB\\(zb本\\(bu日\\fR\\(zj\n\\fB日",
            narrow: 0,
            wide: 2,
            bytes: 42,
        },
        Case {
            text: "日\n\\fBa日\n\\-日\n\\fB",
            shown: "日\n\\fBa\\(zb日\n\\-日\n\\fB",
            narrow: 0,
            wide: 1,
            bytes: 22,
        },
        Case {
            text: ".TS\nl.\n日本\n日 T{\n日\n本\nT}\n日\n.TE\n日\n本",
            shown: ".TS\nl.\n日\\(zb本\n日 T{\n日\\(zj\n本\nT}\n日\n.TE\n日\\(zj\n本",
            narrow: 0,
            wide: 2,
            bytes: 51,
        },
        Case {
            text: "이름 설명\n이",
            shown: "이름 설명\n이",
            narrow: 0,
            wide: 4,
            bytes: 12,
        },
        Case {
            text: "TÊN tệp",
            shown: "TÊN tệp",
            narrow: 2,
            wide: 0,
            bytes: 7,
        },
        Case {
            text: "te\u{323}\u{302}p tệp",
            shown: "tệp tệp",
            narrow: 1,
            wide: 0,
            bytes: 7,
        },
        Case {
            text: "x\u{301}\u{323}",
            shown: "x\u{301}\u{323}",
            narrow: 1,
            wide: 0,
            bytes: 1,
        },
        Case {
            text: "1\u{327} \\s1\u{327}",
            shown: "1\u{327} \\s1",
            narrow: 1,
            wide: 0,
            bytes: 5,
        },
        Case {
            text: "\\fBe\u{301}",
            shown: "\\fBe",
            narrow: 0,
            wide: 0,
            bytes: 4,
        },
        Case {
            text: "a\u{200b}b",
            shown: "ab",
            narrow: 0,
            wide: 0,
            bytes: 2,
        },
    ]
}

#[test]
fn examples(rt: HostRuntime) {
    for row in rows() {
        let Ok(outcome) = back_of(rt.alloc(), row.text) else {
            assert!(rt; false);
            return;
        };
        assert_eq!(rt; outcome.narrow, row.narrow);
        assert_eq!(rt; outcome.wide, row.wide);
        assert_eq!(rt; outcome.reported, 0);
        assert_eq!(rt; outcome.bytes, row.bytes);
        assert_eq!(rt; outcome.shown.as_slice(), row.shown.as_bytes());
    }
}
