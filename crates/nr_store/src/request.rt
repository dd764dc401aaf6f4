//! The requests of the language.

/// A request (CSTR 54, request summary; `.cp` of the groff manual), under its own name.
#[derive(Clone, Copy)]
pub enum Request {
    /// `.ad`: adjusting on, and how.
    Ad,
    /// `.af`: the format of a register.
    Af,
    /// `.am`: append to a macro.
    Am,
    /// `.as`: append to a string.
    As,
    /// `.bp`: begin a page.
    Bp,
    /// `.br`: a break.
    Br,
    /// `.c2`: the no-break control character.
    C2,
    /// `.cc`: the control character.
    Cc,
    /// `.ce`: centre lines.
    Ce,
    /// `.ch`: move a trap.
    Ch,
    /// `.cp`: long names off or on.
    Cp,
    /// `.da`: append to a diversion.
    Da,
    /// `.de`: define a macro.
    De,
    /// `.di`: divert.
    Di,
    /// `.ds`: define a string.
    Ds,
    /// `.dt`: a diversion's trap.
    Dt,
    /// `.el`: the else part.
    El,
    /// `.em`: the macro at the end.
    Em,
    /// `.ex`: end as if the input had ended.
    Ex,
    /// `.fi`: fill mode.
    Fi,
    /// `.ft`: the font.
    Ft,
    /// `.hw`: words with their hyphenation points.
    Hw,
    /// `.hy`: hyphenation on.
    Hy,
    /// `.ie`: if, with an else part to come.
    Ie,
    /// `.if`: if.
    If,
    /// `.ig`: ignore lines.
    Ig,
    /// `.in`: the indent.
    In,
    /// `.it`: a trap after input lines.
    It,
    /// `.lc`: the leader repetition character.
    Lc,
    /// `.ll`: the line length.
    Ll,
    /// `.lt`: the title length.
    Lt,
    /// `.mk`: mark the present place.
    Mk,
    /// `.na`: no adjusting.
    Na,
    /// `.ne`: need vertical space.
    Ne,
    /// `.nf`: no-fill mode.
    Nf,
    /// `.nh`: hyphenation off.
    Nh,
    /// `.nr`: set a register.
    Nr,
    /// `.ns`: no-space mode.
    Ns,
    /// `.pc`: the page number character.
    Pc,
    /// `.pl`: the page length.
    Pl,
    /// `.pn`: the next page's number.
    Pn,
    /// `.po`: the page offset.
    Po,
    /// `.ps`: the point size, without effect.
    Ps,
    /// `.rm`: remove a name.
    Rm,
    /// `.rn`: rename.
    Rn,
    /// `.rr`: remove a register.
    Rr,
    /// `.rs`: restore spacing.
    Rs,
    /// `.rt`: return to a place above.
    Rt,
    /// `.sp`: vertical space.
    Sp,
    /// `.ta`: tab stops.
    Ta,
    /// `.tc`: the tab repetition character.
    Tc,
    /// `.ti`: the indent of one line.
    Ti,
    /// `.tl`: a title.
    Tl,
    /// `.ul`: underline lines.
    Ul,
    /// `.vs`: the vertical spacing.
    Vs,
    /// `.wh`: plant a trap.
    Wh,
}

/// The requests, each after the two bytes of its name.
pub const REQUESTS: [(u8, u8, Request); 56] = [
    (b'a', b'd', Request::Ad),
    (b'a', b'f', Request::Af),
    (b'a', b'm', Request::Am),
    (b'a', b's', Request::As),
    (b'b', b'p', Request::Bp),
    (b'b', b'r', Request::Br),
    (b'c', b'2', Request::C2),
    (b'c', b'c', Request::Cc),
    (b'c', b'e', Request::Ce),
    (b'c', b'h', Request::Ch),
    (b'c', b'p', Request::Cp),
    (b'd', b'a', Request::Da),
    (b'd', b'e', Request::De),
    (b'd', b'i', Request::Di),
    (b'd', b's', Request::Ds),
    (b'd', b't', Request::Dt),
    (b'e', b'l', Request::El),
    (b'e', b'm', Request::Em),
    (b'e', b'x', Request::Ex),
    (b'f', b'i', Request::Fi),
    (b'f', b't', Request::Ft),
    (b'h', b'w', Request::Hw),
    (b'h', b'y', Request::Hy),
    (b'i', b'e', Request::Ie),
    (b'i', b'f', Request::If),
    (b'i', b'g', Request::Ig),
    (b'i', b'n', Request::In),
    (b'i', b't', Request::It),
    (b'l', b'c', Request::Lc),
    (b'l', b'l', Request::Ll),
    (b'l', b't', Request::Lt),
    (b'm', b'k', Request::Mk),
    (b'n', b'a', Request::Na),
    (b'n', b'e', Request::Ne),
    (b'n', b'f', Request::Nf),
    (b'n', b'h', Request::Nh),
    (b'n', b'r', Request::Nr),
    (b'n', b's', Request::Ns),
    (b'p', b'c', Request::Pc),
    (b'p', b'l', Request::Pl),
    (b'p', b'n', Request::Pn),
    (b'p', b'o', Request::Po),
    (b'p', b's', Request::Ps),
    (b'r', b'm', Request::Rm),
    (b'r', b'n', Request::Rn),
    (b'r', b'r', Request::Rr),
    (b'r', b's', Request::Rs),
    (b'r', b't', Request::Rt),
    (b's', b'p', Request::Sp),
    (b't', b'a', Request::Ta),
    (b't', b'c', Request::Tc),
    (b't', b'i', Request::Ti),
    (b't', b'l', Request::Tl),
    (b'u', b'l', Request::Ul),
    (b'v', b's', Request::Vs),
    (b'w', b'h', Request::Wh),
];
