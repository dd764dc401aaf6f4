// The line of each bad word, byte for byte.
use nr_units::fakes::Slate;
use program_options::{read_words, usage_line};

/// Words of which the first bad one is reported, and the line that does.
type Case = (&'static [&'static str], &'static [u8]);

// Each table is behind a function of its own, so that a proof goes over the rows of one only.

/// Options that are not there.
fn options() -> &'static [Case] {
    &[
        (&["-V"], b"nulbiko: option -V is not in this program\n"),
        (
            &["-X", "-y"],
            b"nulbiko: option -X is not in this program\n",
        ),
        (&["-a"], b"nulbiko: option -a is not in this program\n"),
        (&["-y"], b"nulbiko: unknown option -y\n"),
        (&["-c", "-yes", "-V"], b"nulbiko: unknown option -y\n"),
        (&["-\u{e9}t"], b"nulbiko: unknown option -\xc3\xa9\n"),
        (&["--wide", "80"], b"nulbiko: unknown option --wide\n"),
        (
            &["--warnings=all"],
            b"nulbiko: unknown option --warnings=all\n",
        ),
        (&["--alone=1"], b"nulbiko: unknown option --alone=1\n"),
        (&["-tx"], b"nulbiko: bad value in -tx\n"),
    ]
}

/// Values that are not good.
fn values() -> &'static [Case] {
    &[
        (&["-Tps"], b"nulbiko: bad value in -Tps\n"),
        (&["-T", "pdf"], b"nulbiko: bad value in pdf\n"),
        (&["-w0"], b"nulbiko: bad value in -w0\n"),
        (&["-w", "10000"], b"nulbiko: bad value in 10000\n"),
        (&["-w80x"], b"nulbiko: bad value in -w80x\n"),
        (&["--width=wide"], b"nulbiko: bad value in --width=wide\n"),
        (&["--width", ""], b"nulbiko: bad value in \n"),
        (&["--faces=bold"], b"nulbiko: bad value in --faces=bold\n"),
        (&["-rLL=6.5i"], b"nulbiko: bad value in -rLL=6.5i\n"),
        (&["-rC"], b"nulbiko: bad value in -rC\n"),
        (&["-d=text"], b"nulbiko: bad value in -d=text\n"),
        (&["-da=one\ntwo"], b"nulbiko: bad value in -da=one\ntwo\n"),
        (&["-n2147483648"], b"nulbiko: bad value in -n2147483648\n"),
        (&["-nx"], b"nulbiko: bad value in -nx\n"),
        (&["-Ls63"], b"nulbiko: bad value in -Ls63\n"),
        (&["-Lr63"], b"nulbiko: bad value in -Lr63\n"),
        (&["-Lt1048577"], b"nulbiko: bad value in -Lt1048577\n"),
        (&["-Lq5"], b"nulbiko: bad value in -Lq5\n"),
        (&["-Lx4294967297"], b"nulbiko: bad value in -Lx4294967297\n"),
    ]
}

/// Options after which nothing stands.
fn endings() -> &'static [Case] {
    &[
        (&["-T"], b"nulbiko: no value after -T\n"),
        (&["-man", "-K"], b"nulbiko: no value after -K\n"),
        (&["--within"], b"nulbiko: no value after --within\n"),
    ]
}

/// Whether one of the words is bad, and this line reports it.
fn tells(words: &[&str], line: &[u8]) -> bool {
    let mut out = [0; 200];
    let mut errors = Slate::over(&mut out);
    match read_words(words) {
        Ok(_) => false,
        Err(usage) => usage_line(&usage, &mut errors).is_ok() && errors.bytes() == line,
    }
}

/// The first of these lines that is not reported.
fn first_untold(rows: &[Case]) -> Option<&'static [u8]> {
    for (words, line) in rows {
        if !tells(words, line) {
            return Some(*line);
        }
    }
    None
}

#[test]
fn tells_the_first_bad_word(rt: HostRuntime) {
    for rows in [options(), values(), endings()] {
        assert_eq!(rt; first_untold(rows), None);
    }
}

#[test]
fn tells_the_33rd_of_a_kind(rt: HostRuntime) {
    let words = ["-ms"; 33];
    assert!(rt; read_words(&words[..32]).is_ok());
    assert!(rt; tells(&words, b"nulbiko: too many options like -ms\n"));
    let words = ["-rC1"; 33];
    assert!(rt; read_words(&words[..32]).is_ok());
    assert!(rt; tells(&words, b"nulbiko: too many options like -rC1\n"));
}
