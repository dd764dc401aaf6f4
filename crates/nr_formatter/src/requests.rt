//! What each request does, one under each name. (CSTR 54, request reference and index; groff manual, `.cp`)
ghost use Rattle.std.specs.Prelude.{◌≡◌, OnOk};
ghost use Rattle.nr_store.specs.Store.{afforded};
ghost use Rattle.nr_formatter.specs.Limits.{IsWithin, limits_of};
ghost use Rattle.nr_formatter.specs.Requests.{breaks, act};

use crate::formatter::Formatter;
use crate::tasks::Task;
use nr_store::{Request, StoredBytes};

/// A request that breaks before it takes effect.
pub(crate) fn breaks(request: Request) -> bool
    ensures { result ≡ breaks request }
{
    matches!(
        request,
        Request::Bp
            | Request::Br
            | Request::Ce
            | Request::Fi
            | Request::In
            | Request::Nf
            | Request::Sp
            | Request::Ti
    )
}

impl Formatter {
    /// A request takes effect. The reader acts on those that only have the input read on.
    pub(crate) fn act(&mut self, request: Request) -> Result<(), StoredBytes>
        ensures result { IsWithin self.old → result ≡ afforded (act request self.old).store tt }
        ensures ok { OnOk result (self.new ≡ act request self.old) }
        ensures limits { limits_of self.new ≡ limits_of self.old }
    {
        match request {
            Request::Ad => Ok(self.ad()),
            Request::Af => self.af(),
            Request::Am => self.am(),
            Request::Bp => Ok(self.bp()),
            Request::C2 => Ok(self.c2()),
            Request::Cc => Ok(self.cc()),
            Request::Ce => Ok(self.ce()),
            Request::Ch => {
                self.ch();
                self.fit_memory();
                Ok(())
            }
            Request::Cp => Ok(self.cp()),
            Request::Da => self.da(),
            Request::De => self.de(),
            Request::Di => self.di(),
            Request::Dt => Ok(self.dt()),
            Request::Em => Ok(self.em()),
            Request::Ex => Ok(self.ex()),
            Request::Fi => Ok(self.fi()),
            Request::Ft => Ok(self.ft()),
            Request::Hw => self.hw(),
            Request::Hy => Ok(self.hy()),
            Request::Ig => self.ig(),
            Request::In => Ok(self.in_()),
            Request::It => Ok(self.it()),
            Request::Lc => Ok(self.lc()),
            Request::Ll => Ok(self.ll()),
            Request::Lt => Ok(self.lt()),
            Request::Mk => self.mk(),
            Request::Na => Ok(self.na()),
            Request::Ne => Ok(self.ne()),
            Request::Nf => Ok(self.nf()),
            Request::Nh => Ok(self.nh()),
            Request::Nr => self.nr(),
            Request::Ns => Ok(self.ns()),
            Request::Pc => Ok(self.pc()),
            Request::Pl => Ok(self.pl()),
            Request::Pn => Ok(self.pn()),
            Request::Po => Ok(self.po()),
            Request::Rm => {
                self.rm();
                self.fit_memory();
                Ok(())
            }
            Request::Rn => {
                self.rn();
                self.fit_memory();
                Ok(())
            }
            Request::Rr => {
                self.rr();
                self.fit_memory();
                Ok(())
            }
            Request::Rs => Ok(self.rs()),
            Request::Rt => Ok(self.rt()),
            Request::Sp => Ok(self.sp()),
            Request::Ta => Ok(self.ta()),
            Request::Tc => Ok(self.tc()),
            Request::Ti => Ok(self.ti()),
            Request::Ul => Ok(self.ul()),
            Request::Vs => Ok(self.vs()),
            Request::Wh => self.wh(),
            Request::As
            | Request::Br
            | Request::Ds
            | Request::El
            | Request::Ie
            | Request::If
            | Request::Ps
            | Request::Tl => {
                self.task = Task::Read;
                Ok(())
            }
        }
    }
}
