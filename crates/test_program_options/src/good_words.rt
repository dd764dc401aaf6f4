// What good words ask for.
use program_options::{Device, Faces, Job, Kind, Says, Setting, read_words};

/// Words, and what they ask for.
struct Asked {
    words: &'static [&'static str],
    macros: &'static [&'static str],
    device: Option<Device>,
    width: Option<u64>,
    faces: Faces,
    /// What is paged, warns, is only checked, reads standard input, shows bold, and is alone, by the letters `p`, `w`, `z`, `i`,
    /// `b` and `a`.
    flags: &'static [u8],
    /// Registers and strings, each as it would stand after `-r` or `-d`.
    settings: &'static [&'static [u8]],
    folder: Option<&'static str>,
    coding: Option<&'static str>,
    pages: Option<&'static str>,
    within: Option<&'static str>,
    files: &'static [&'static str],
}

const PLAIN: Asked = Asked {
    words: &[],
    macros: &[],
    device: None,
    width: None,
    faces: Faces::Auto,
    flags: b"",
    settings: &[],
    folder: None,
    coding: None,
    pages: None,
    within: None,
    files: &[],
};

static OWN: [Asked; 6] = [
    PLAIN,
    Asked {
        words: &["ls.1"],
        files: &["ls.1"],
        ..PLAIN
    },
    // options end at the first file, or at `--`
    Asked {
        words: &["-ms", "-w", "60", "paper.ms", "-w72", "-"],
        macros: &["s"],
        width: Some(60),
        files: &["paper.ms", "-w72", "-"],
        ..PLAIN
    },
    Asked {
        words: &["-b", "-c", "--alone", "--", "-x", "--"],
        faces: Faces::Off,
        flags: b"ab",
        files: &["-x", "--"],
        ..PLAIN
    },
    Asked {
        words: &["--faces", "none", "-mandoc", "-"],
        macros: &["andoc"],
        faces: Faces::None,
        files: &["-"],
        ..PLAIN
    },
    // the last of a kind counts
    Asked {
        words: &[
            "--width=60",
            "--faces",
            "on",
            "-Tutf8",
            "-w72",
            "--faces=off",
            "-T",
            "latin1",
            "-p",
            "--warnings",
            "--within=/usr/share/man",
            "-o1-3",
            "-Mtmac",
        ],
        device: Some(Device::Latin1),
        width: Some(72),
        faces: Faces::Off,
        flags: b"pw",
        folder: Some("tmac"),
        pages: Some("1-3"),
        within: Some("/usr/share/man"),
        ..PLAIN
    },
];

static OTHERS: [Asked; 6] = [
    // man-db
    Asked {
        words: &["-mandoc", "-rLL=87n", "-rLT=87n", "-Tutf8"],
        macros: &["andoc"],
        device: Some(Device::Utf8),
        width: Some(87),
        ..PLAIN
    },
    Asked {
        words: &["-mandoc", "-c", "-dAD=l", "-rHY=0", "-Tascii", "-rLL=40m"],
        macros: &["andoc"],
        device: Some(Device::Ascii),
        width: Some(40),
        faces: Faces::Off,
        settings: &[b"dAD=l", b"rHY=0"],
        ..PLAIN
    },
    // lintian, by man
    Asked {
        words: &["-mandoc", "-wmac", "-Z", "-Tutf8", "-K", "utf8"],
        macros: &["andoc"],
        device: Some(Device::Utf8),
        flags: b"wz",
        coding: Some("utf8"),
        ..PLAIN
    },
    // makefiles
    Asked {
        words: &[
            "-t", "-e", "-ms", "-Tascii", "-P-cbou", "-rLN=1", "-d", "xy=", "x.ms",
        ],
        macros: &["s"],
        device: Some(Device::Ascii),
        faces: Faces::Off,
        settings: &[b"rLN=1", b"dxy="],
        files: &["x.ms"],
        ..PLAIN
    },
    Asked {
        words: &["-z", "-ww", "-man", "-man", "-"],
        macros: &["an", "an"],
        flags: b"wz",
        files: &["-"],
        ..PLAIN
    },
    // those that change nothing
    Asked {
        words: &[
            "-h", "-i", "-t", "-U", "-W", "font", "-P-c", "-e", "-R", "-G", "-S", "-q", "-C", "-f",
            "R", "-rC1", "-dxtext",
        ],
        faces: Faces::Off,
        flags: b"i",
        settings: &[b"rC=1", b"dx=text"],
        ..PLAIN
    },
];

/// Whether these settings are those rows.
fn sets(settings: &[Setting<'_>], rows: &[&[u8]]) -> bool {
    if settings.len() != rows.len() {
        return false;
    }
    for (setting, row) in settings.iter().zip(rows) {
        if !is_row(setting, row) {
            return false;
        }
    }
    true
}

/// Whether a setting is written so.
fn is_row(setting: &Setting<'_>, row: &[u8]) -> bool {
    let Some((kind, rest)) = row.split_first() else {
        return false;
    };
    let letter = match setting.kind {
        Kind::Register => b'r',
        Kind::Text => b'd',
    };
    let size = setting.name.len();
    *kind == letter
        && rest.len() > size
        && &rest[..size] == setting.name
        && rest[size] == b'='
        && &rest[size + 1..] == setting.value
}

/// Whether texts are equal.
fn are_texts(texts: &[&str], others: &[&str]) -> bool {
    if texts.len() != others.len() {
        return false;
    }
    for (text, other) in texts.iter().zip(others) {
        if text.as_bytes() != other.as_bytes() {
            return false;
        }
    }
    true
}

/// Whether both are the same text, or none.
fn is_name(name: Option<&str>, other: Option<&str>) -> bool {
    match (name, other) {
        (Some(name), Some(other)) => name.as_bytes() == other.as_bytes(),
        (None, None) => true,
        _ => false,
    }
}

/// Whether the job has these flags.
fn has_flags(job: &Job<'_>, flags: &[u8]) -> bool {
    job.plain.is_paged == flags.contains(&b'p')
        && job.plain.warns == flags.contains(&b'w')
        && job.plain.checks == flags.contains(&b'z')
        && job.plain.reads_input == flags.contains(&b'i')
        && job.plain.shows_bold == flags.contains(&b'b')
        && job.plain.is_alone == flags.contains(&b'a')
}

/// Whether that is what a job asks for.
fn is_asked(job: &Job<'_>, asked: &Asked) -> bool {
    are_texts(job.macros.as_slice(), asked.macros)
        && job.plain.device == asked.device
        && job.plain.width == asked.width
        && job.plain.faces == asked.faces
        && has_flags(job, asked.flags)
        && sets(job.settings.as_slice(), asked.settings)
        && is_name(job.folder, asked.folder)
        && is_name(job.coding, asked.coding)
        && is_name(job.pages, asked.pages)
        && is_name(job.within, asked.within)
        && are_texts(job.files, asked.files)
}

/// The first words that ask for something else.
fn first_other(rows: &'static [Asked]) -> Option<&'static [&'static str]> {
    for asked in rows {
        match read_words(asked.words) {
            Ok(job) if is_asked(&job, asked) => {}
            _ => return Some(asked.words),
        }
    }
    None
}

#[test]
fn words_of_its_own(rt: HostRuntime) {
    assert!(rt; first_other(&OWN).is_none());
}

#[test]
fn words_that_others_give_nroff(rt: HostRuntime) {
    assert!(rt; first_other(&OTHERS).is_none());
}

/// Limits, the first page and what is printed in place of pages.
fn numbers(words: &[&str]) -> Option<[u64; 7]> {
    match read_words(words) {
        Ok(job) => Some([
            job.limits.stored() as u64,
            job.limits.depth() as u64,
            job.limits.expansions(),
            job.limits.moves(),
            job.plain.formats,
            job.plain.row,
            job.plain.first,
        ]),
        Err(_) => None,
    }
}

#[test]
fn limits_and_numbers(rt: HostRuntime) {
    assert_eq!(rt;
        numbers(&[]),
        Some([4_194_304, 256, 10_000, 1_000_000_000, 262_144, 65_536, 1])
    );
    let words = [
        "-Ls64",
        "-Ld1",
        "-Lx4294967296",
        "-Lm64",
        "-Lt1",
        "-Lr64",
        "-n007",
    ];
    assert_eq!(rt; numbers(&words), Some([64, 1, 4_294_967_296, 64, 1, 64, 7]));
}

#[test]
fn says(rt: HostRuntime) {
    for (words, says) in [
        (["-v"], Says::Version),
        (["--version"], Says::Version),
        (["--help"], Says::Help),
    ] {
        assert!(rt; read_words(&words).is_ok_and(|job| job.plain.says == Some(says)));
    }
}
