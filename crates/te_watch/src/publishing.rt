ghost use Rattle.std.specs.Prelude.{◌≡◌, [], false, length, IfOk, IfErr, OnOk, OnErr};
ghost use mathlib.Core.List.{IsPrefix};
ghost use Rattle.te_lock.specs.Lock.{IsSamePass};
ghost use Rattle.te_history.specs.Follows.{IsLegal};
ghost use Rattle.te_runtime.specs.Calls.{Called};
ghost use Rattle.te_watch.specs.Publications.{RefusesPublish, as_publish};

use crate::fault::PublishFault;
use crate::publisher::Publisher;
use std::alloc::Global;
use std::sync::Wait;
use te_board::Board;
use te_lock::Pass;
use te_runtime::{SyncFault, TeRuntime};

fn told(fault: SyncFault) -> PublishFault
    ensures { result ≡ as_publish fault }
{
    match fault {
        SyncFault::Busy { word } => PublishFault::Busy { word },
        _ => PublishFault::Memory,
    }
}

impl Publisher {
    /// Publishes all that the pass has then read, and answers its length. It tries the turn once; it may wait for observers
    /// who are reading. Its time grows with the entries that are new. Conditions: the pass is of this runtime, and hasn't
    /// the turn; the runtime has as many callers as the watch; what the pass had read begins with what was published.
    ///
    /// The refusals, in order: `Busy` where another caller has the turn; `Memory`. What was published is then as before,
    /// and a later call may succeed. Nothing is ever appended to the history.
    pub fn publish<R: Wait>(
        &mut self,
        rt: &R,
        alloc: Global,
        runtime: &TeRuntime,
        pass: &mut Pass<Board>,
    ) -> Result<u64, PublishFault>
        requires here { pass.old.lock ≡ runtime.now }
        requires idle { pass.old.has_turn ≡ false }
        requires callers { runtime.now.callers ≡ self.old.watch.callers }
        requires goes_on { IsPrefix self.old.list pass.old.read }
        ensures same { IsSamePass pass.old pass.new }
        ensures turn { pass.new.has_turn ≡ false }
        ensures own { pass.new.own ≡ pass.old.own }

        // what is published then
        ensures watch { self.new.watch ≡ self.old.watch }
        ensures begins { IsPrefix self.old.list self.new.list }
        ensures legal { IsLegal self.new.watch.callers self.new.list }
        ensures ok { IfOk result (λ front. Called pass.old pass.new []) }
        ensures list { OnOk result (self.new.list ≡ pass.new.read) }
        ensures front { IfOk result (λ front. front ≡ length self.new.list) }

        // it may be called again with this pass
        ensures again { IsPrefix self.new.list pass.new.read }

        // what is left of a refusal
        ensures refused { IfErr result (RefusesPublish pass.old pass.new) }
        ensures kept { OnErr result (self.new ≡ self.old) }
    {
        let front = self.front();
        match runtime.news(alloc, pass, front) {
            Ok(news) => {
                self.go_on(rt, &news);
                Ok(self.front())
            }
            Err(fault) => Err(told(fault)),
        }
    }
}
