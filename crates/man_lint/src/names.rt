// The names that are known: of requests, of the macros of man(7), and of its strings.
ghost use Rattle.std.specs.Prelude.{◌≡◌};
ghost use Rattle.man_lint.specs.Names as specs;

use nr_units::Name;

/// The requests of nroff and groff. A blank ends each name.
static REQUESTS: [u8; 816] = *b"\
    ab ad af aln als am am1 ami ami1 as as1 asciify bd blm box boxa bp br break brp c2 cc ce \
    cf cflags ch char chop class close color continue cp cs cu da de de1 defcolor dei dei1 \
    device devicem di do ds ds1 dt ec ecr ecs el em eo ev evc ex fam fc fchar fcolor fi fp \
    fschar fspecial ft ftr fzoom gcolor hc hcode hla hlm hpf hpfa hpfcode hw hy hym hys ie \
    if ig in it itc kern lc length lf lg linetabs ll ls lsm lt mc mk mso msoquiet na ne nf \
    nh nm nn nop nr nroff ns nx open opena os output pc pev phw pi pl pm pn pnr po ps psbb \
    pso ptr pvs rchar rd return rfschar rj rm rn rnn rr rs rt schar shc shift sizes so \
    soquiet sp special ss stringup sty sv sy ta tc ti tkf tl tm tm1 tmc tr trf trin trnt \
    troff uf ul unformat vpt vs warn wh while write writec writem backtrace composite \
    spreadwarn stringdown substring warnscale \
    ";

/// The macros of man(7), and those that begin and end what tbl, eqn, pic and refer read.
static MACROS: [u8; 137] = *b"\
    AT B BI BR DE DS DT EE EN EQ EX HP I IB IP IR LP ME MR MT OP P PD PE PF PP PS R RB RE RI \
    RS SB SH SM SS SY T& TE TH TP TQ TS UC UE UR YS \
    ";

/// The strings of man(7), and the device's name.
static STRINGS: [u8; 25] = *b"R S Tm lq rq la ra HF .T ";

/// The bytes that an escape may begin with, but for control characters.
static ESCAPES: [u8; 66] = *b" \"#$%&'()*,-./0:?[\\^_`{|}~!ABCDEFHLMNORSVXYZabcdefghklmnoprstuvwxz";

/// The requests after which a page can't be looked at, as they read other texts or change how it is read; and the
/// macro that begins a page of mdoc(7).
static LEAVING: [u8; 40] = *b"so soquiet pso nx do ec eo ecr cc c2 Dd ";

/// The requests whose first word is a name that they give something.
static NAMING: [u8; 70] = *b"\
    ds ds1 as as1 de de1 dei dei1 am am1 ami ami1 als di da box boxa chop \
    ";

/// Those that are followed by lines of a definition, up to its end.
static DEFINING: [u8; 32] = *b"de de1 dei dei1 am am1 ami ami1 ";

/// A name that a byte is added to, where there is room for it.
pub fn grown(name: Name, byte: u8) -> Name
    ensures { result ≡ specs.grown name byte }
{
    let mut name = name;
    if !name.is_full() {
        name.push(byte);
    }
    name
}

/// Whether a word is one of the names of a text, each of which a blank ends.
fn is_listed(names: &[u8], word: &[u8]) -> bool
    ensures { result ≡ specs.is_listed names.now word.now }
{
    let mut name = Name::new();
    for byte in names {
        if *byte == b' ' {
            if name.as_bytes() == word {
                return true;
            }
            name = Name::new();
        } else {
            name = grown(name, *byte);
        }
    }
    false
}

/// Whether a name is that of a request.
#[tactic(auto, unfolding(crate::specs::Names::is_request))]
pub fn is_request(name: &[u8]) -> bool
    ensures { result ≡ specs.is_request name.now }
{
    is_listed(&REQUESTS, name)
}

/// Whether a name is that of a macro of man(7), or of a preprocessor.
#[tactic(auto, unfolding(crate::specs::Names::is_macro))]
pub fn is_macro(name: &[u8]) -> bool
    ensures { result ≡ specs.is_macro name.now }
{
    is_listed(&MACROS, name)
}

/// Whether a string has this name in each page. The empty name names nothing that could be missed.
#[tactic(auto, unfolding(crate::specs::Names::is_string))]
pub fn is_string(name: &[u8]) -> bool
    ensures { result ≡ specs.is_string name.now }
{
    name.is_empty() || is_listed(&STRINGS, name)
}

/// Whether what comes after this name can't be looked at.
#[tactic(auto, unfolding(crate::specs::Names::leaves))]
pub fn leaves(name: &[u8]) -> bool
    ensures { result ≡ specs.leaves name.now }
{
    is_listed(&LEAVING, name)
}

/// Whether the first word of this request is a name that it gives something.
#[tactic(auto, unfolding(crate::specs::Names::names_first))]
pub fn names_first(name: &[u8]) -> bool
    ensures { result ≡ specs.names_first name.now }
{
    is_listed(&NAMING, name)
}

/// Whether this request reads a file of macros, which may give any name.
#[tactic(auto, unfolding(crate::specs::Names::reads_macros))]
pub fn reads_macros(name: &[u8]) -> bool
    ensures { result ≡ specs.reads_macros name.now }
{
    name == b"mso".as_slice() || name == b"msoquiet".as_slice()
}

/// Whether lines of a definition follow this request.
#[tactic(auto, unfolding(crate::specs::Names::defines))]
pub fn defines(name: &[u8]) -> bool
    ensures { result ≡ specs.defines name.now }
{
    is_listed(&DEFINING, name)
}

/// Whether a condition stands after this request, and then what it calls.
#[tactic(auto, unfolding(crate::specs::Names::is_condition))]
pub fn is_condition(name: &[u8]) -> bool
    ensures { result ≡ specs.is_condition name.now }
{
    name == b"if".as_slice()
        || name == b"ie".as_slice()
        || name == b"el".as_slice()
        || name == b"while".as_slice()
}

/// The macro that ends what this one begins for a preprocessor.
#[tactic(auto, unfolding(crate::specs::Names::region_end))]
pub fn region_end(name: &[u8]) -> Option<Name>
    ensures { result ≡ specs.region_end name.now }
{
    if name == b"TS".as_slice() {
        Some(Name::of(b"TE"))
    } else if name == b"EQ".as_slice() {
        Some(Name::of(b"EN"))
    } else if name == b"PS".as_slice() {
        Some(Name::of(b"PE"))
    } else {
        None
    }
}

/// Whether a block is opened by this macro.
#[tactic(auto, unfolding(crate::specs::Names::opens))]
pub fn opens(name: &[u8]) -> bool
    ensures { result ≡ specs.opens name.now }
{
    name == b"RS".as_slice()
        || name == b"UR".as_slice()
        || name == b"MT".as_slice()
        || name == b"EX".as_slice()
}

/// The macro that opens what this one ends.
#[tactic(auto, unfolding(crate::specs::Names::opener_of))]
pub fn opener_of(name: &[u8]) -> Option<Name>
    ensures { result ≡ specs.opener_of name.now }
{
    if name == b"RE".as_slice() {
        Some(Name::of(b"RS"))
    } else if name == b"UE".as_slice() {
        Some(Name::of(b"UR"))
    } else if name == b"ME".as_slice() {
        Some(Name::of(b"MT"))
    } else if name == b"EE".as_slice() {
        Some(Name::of(b"EX"))
    } else {
        None
    }
}

/// Whether a section begins by this macro.
#[tactic(auto, unfolding(crate::specs::Names::heads))]
pub fn heads(name: &[u8]) -> bool
    ensures { result ≡ specs.heads name.now }
{
    name == b"SH".as_slice() || name == b"SS".as_slice()
}

/// Whether a byte after a backslash is an escape of nroff or groff.
#[tactic(auto, unfolding(crate::specs::Names::is_escape))]
pub fn is_escape(byte: u8) -> bool
    ensures { result ≡ specs.is_escape byte }
{
    byte < b' ' || is_in(&ESCAPES, byte)
}

/// Whether a byte is one of these.
fn is_in(bytes: &[u8], byte: u8) -> bool
    ensures { result ≡ specs.is_in bytes.now byte }
{
    for other in bytes {
        if *other == byte {
            return true;
        }
    }
    false
}
