// The lines below the head.
ghost use Rattle.sheet.specs.Lines.{said};
ghost use Rattle.sheet.specs.Days.{taken};
ghost use Rattle.sheet.specs.Desks.{day_of, Took};

use crate::desks::Desk;
use crate::entries::{Entry, Output, Subject};
use crate::faults::Fault;
use crate::lines::{BadLine, Line};
use crate::trades::MemberTrade;
use contribution::{Isin, Security, Trade};

impl Desk {
    // Takes line n; the fault is the one that stops the run.
    pub(crate) fn take(
        &mut self,
        n: usize,
        line: Result<Line<'_>, BadLine>,
        out: &mut Output,
    ) -> Result<(), Fault>
        ensures { Took (taken n (day_of self.old) (said line.entry)) result (day_of self.old) (day_of self.new) out.old out.new }
    {
        match line {
            Ok(
                Line::Security {
                    isin,
                    price,
                    risk,
                    rate,
                },
            ) => self.securities.push(Security {
                isin: Isin { bytes: *isin },
                price,
                risk,
                rate,
            }),
            Ok(
                Line::Trade {
                    code,
                    isin,
                    side,
                    quantity,
                    price,
                },
            ) => {
                let trade = Trade {
                    isin: Isin { bytes: *isin },
                    side,
                    quantity,
                    price,
                };
                self.trades.push(MemberTrade { code, trade })
            }
            Ok(Line::Call(request)) => {
                let outcome = self.ask(request);
                out.say(&Entry {
                    line: n,
                    subject: Subject::Call(request),
                    outcome,
                });
                Ok(())
            }
            Ok(Line::Account(_)) | Err(_) => Err(Fault::BadLine),
        }
    }
}
