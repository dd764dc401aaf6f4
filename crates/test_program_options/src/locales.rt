// What pages are printed in by the locale.
use program_options::{Device, device_of_locale};

/// The values of LC_ALL, LC_CTYPE and LANG, and what they say.
type Case = ([&'static str; 3], Device);

static ROWS: [Case; 9] = [
    (["", "", ""], Device::Ascii),
    (["", "", "C"], Device::Ascii),
    (["", "", "C.UTF-8"], Device::Utf8),
    (["", "en_US.utf8", "C"], Device::Utf8),
    (["C", "en_US.utf8", "en_US.utf8"], Device::Ascii),
    (["de_DE.Utf8@euro", "C", ""], Device::Utf8),
    (["", "de_DE.ISO-8859-1", "C.UTF-8"], Device::Ascii),
    (["", "", "xx.UTF-"], Device::Ascii),
    (["", "", "utf_8"], Device::Ascii),
];

/// The place of the first locale that says something else.
fn first_other() -> Option<usize> {
    for (place, (words, device)) in ROWS.iter().enumerate() {
        let [all, ctype, lang] = words;
        if device_of_locale(all.as_bytes(), ctype.as_bytes(), lang.as_bytes()) != *device {
            return Some(place);
        }
    }
    None
}

#[test]
fn the_first_that_is_set_counts(rt: HostRuntime) {
    assert_eq!(rt; first_other(), None);
}
