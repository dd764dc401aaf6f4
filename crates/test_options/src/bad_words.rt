// The line of each bad word, byte for byte.
use nr_command_options::{read_words, usage_line};
use nr_units::fakes::Slate;

/// A bad word, and the line that reports it.
type Case = (&'static str, &'static [u8]);

// Each table is behind a function of its own, so that a proof goes over the rows of one only.

/// Bad page lists and page numbers.
fn numbers() -> &'static [Case] {
    &[
        ("-o3-1", b"nroff: bad value in -o3-1\n"),
        ("-o", b"nroff: bad value in -o\n"),
        ("-o1,", b"nroff: bad value in -o1,\n"),
        ("-ox", b"nroff: bad value in -ox\n"),
        ("-n", b"nroff: bad value in -n\n"),
        ("-nx", b"nroff: bad value in -nx\n"),
        ("-n-3", b"nroff: bad value in -n-3\n"),
        ("-n+3", b"nroff: bad value in -n+3\n"),
        ("-n2147483648", b"nroff: bad value in -n2147483648\n"),
        (
            "-n99999999999999999999",
            b"nroff: bad value in -n99999999999999999999\n",
        ),
    ]
}

/// Bad registers.
fn registers() -> &'static [Case] {
    &[
        ("-r", b"nroff: bad value in -r\n"),
        ("-ra", b"nroff: bad value in -ra\n"),
        ("-rab", b"nroff: bad value in -rab\n"),
        ("-ra--1", b"nroff: bad value in -ra--1\n"),
        ("-ra-", b"nroff: bad value in -ra-\n"),
        ("-ra+1", b"nroff: bad value in -ra+1\n"),
        ("-ra-+1", b"nroff: bad value in -ra-+1\n"),
        ("-ra2147483648", b"nroff: bad value in -ra2147483648\n"),
        ("-ra-2147483648", b"nroff: bad value in -ra-2147483648\n"),
        ("-r 5", b"nroff: bad value in -r 5\n"),
        ("-r\x7f5", b"nroff: bad value in -r\x7f5\n"),
        ("-r\u{e9}5", b"nroff: bad value in -r\xc3\xa95\n"),
    ]
}

/// Bad limits, and options that take no value or need one.
fn limits() -> &'static [Case] {
    &[
        ("-Ls63", b"nroff: bad value in -Ls63\n"),
        ("-Ls16777217", b"nroff: bad value in -Ls16777217\n"),
        ("-Ld0", b"nroff: bad value in -Ld0\n"),
        ("-Ld4097", b"nroff: bad value in -Ld4097\n"),
        ("-Lp0", b"nroff: bad value in -Lp0\n"),
        ("-Lx4294967297", b"nroff: bad value in -Lx4294967297\n"),
        ("-Lq5", b"nroff: bad value in -Lq5\n"),
        ("-L", b"nroff: bad value in -L\n"),
        ("-Ls", b"nroff: bad value in -Ls\n"),
        ("-i2", b"nroff: bad value in -i2\n"),
        ("-ix", b"nroff: bad value in -ix\n"),
        ("-m", b"nroff: bad value in -m\n"),
        ("-M", b"nroff: bad value in -M\n"),
    ]
}

/// Options that are not in the profile or not known.
fn letters() -> &'static [Case] {
    &[
        ("-Tascii", b"nroff: option -T is not in this profile\n"),
        ("-s", b"nroff: option -s is not in this profile\n"),
        ("-s2", b"nroff: option -s is not in this profile\n"),
        ("-q", b"nroff: option -q is not in this profile\n"),
        ("-e", b"nroff: option -e is not in this profile\n"),
        ("-h", b"nroff: option -h is not in this profile\n"),
        ("-z\u{e9}", b"nroff: option -z is not in this profile\n"),
        ("-x", b"nroff: unknown option -x\n"),
        ("-foo", b"nroff: unknown option -f\n"),
        ("--", b"nroff: unknown option --\n"),
        ("--x", b"nroff: unknown option --\n"),
        ("-\u{e9}t\u{e9}", b"nroff: unknown option -\xc3\xa9\n"),
        ("-\u{20ac}", b"nroff: unknown option -\xe2\x82\xac\n"),
        ("-\u{10348}x", b"nroff: unknown option -\xf0\x90\x8d\x88\n"),
    ]
}

/// Words of which the first bad one is reported, and the line that does.
fn several() -> &'static [(&'static [&'static str], &'static [u8])] {
    &[
        (&["--", "-"], b"nroff: unknown option --\n"),
        (&["-n1", "-x", "-s"], b"nroff: unknown option -x\n"),
        (&["-s", "-x"], b"nroff: option -s is not in this profile\n"),
        (&["-o5-3", "-s"], b"nroff: bad value in -o5-3\n"),
        (&["-n5", "-n"], b"nroff: bad value in -n\n"),
        (&["-ra1", "-o1,,2", "-"], b"nroff: bad value in -o1,,2\n"),
        (&["-i", "-i", "-I"], b"nroff: unknown option -I\n"),
    ]
}

/// Whether one of the words is bad, with status 2, and this line reports it.
fn tells(words: &[&str], line: &[u8]) -> bool {
    let mut out = [0; 200];
    let mut errors = Slate::over(&mut out);
    match read_words(words) {
        Ok(_) => false,
        Err(usage) => {
            usage.status() == 2
                && usage_line(&usage, &mut errors).is_ok()
                && errors.failed_puts() == 0
                && errors.bytes() == line
        }
    }
}

/// The first of these words that its line does not report.
fn first_untold(rows: &[Case]) -> Option<&'static str> {
    for (word, line) in rows {
        if !tells(&[*word], line) {
            return Some(*word);
        }
    }
    None
}

#[test]
fn tells_the_first_bad_word(rt: HostRuntime) {
    for rows in [numbers(), registers(), limits(), letters()] {
        assert_eq!(rt; first_untold(rows), None);
    }
    for (words, line) in several() {
        assert!(rt; tells(words, line), "{words:?}");
    }
}

/// Whether 32 such words are taken, one more is reported by this line, and a word that is bad by its form before it.
fn tells_the_33rd(word: &str, line: &[u8]) -> bool {
    let mut words = [word; 33];
    if read_words(&words[..32]).is_err() || !tells(&words, line) {
        return false;
    }
    words[32] = "-rb";
    tells(&words, b"nroff: bad value in -rb\n")
}

// 32 registers and 32 macro files are taken.
#[test]
fn tells_one_too_many(rt: HostRuntime) {
    let rows = [
        ("-ra1", "nroff: too many options like -ra1\n"),
        ("-ma", "nroff: too many options like -ma\n"),
    ];
    for (word, line) in rows {
        assert!(rt; tells_the_33rd(word, line.as_bytes()), "{word}");
    }
}
