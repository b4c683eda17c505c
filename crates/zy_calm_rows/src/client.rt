ghost use Rattle.std.specs.Prelude.{◌≡◌, ◌+◌, ◌<◌, ◌≤◌, ◌++◌, ℕ, List, [], ◌∷◌, None, Some, length, true};
ghost use Rattle.zy_base.specs.declared.cause.Cause.TheVariants as causes;
ghost use Rattle.zy_base.specs.declared.ids.Party.TheVariants.{Replica};
ghost use Rattle.zy_parts.specs.declared.signed.Signed.{Signed};
ghost use Rattle.zy_parts.specs.declared.statements.Ask.{Ask};
ghost use Rattle.zy_parts.specs.declared.statements.Local.{Local};
ghost use Rattle.zy_table.specs.ClientRows.{ask, asked, certificate_of, complete, complete_by, count_local, hear_response, is_by_primary, keep, kept_of, next_ask, run_out, send_commit};
ghost use Rattle.zy_table.specs.ClientState.{ClientState, signs_left, refused, taken};
ghost use Rattle.zy_table.specs.declared.client.Response.{Response};
ghost use Rattle.zy_calm_rows.specs.Waiting.{Answered, Awaits, IsCertificateOf, IsFresh, IsOf, commit_with};

/// A client that waits for nothing, and has a signature left, asks.
pub fn calm_asks()
    ensures { (c : ClientState) (op : List ℕ) → c.waiting ≡ None → 1 ≤ signs_left c → ask c op ≡ asked c (next_ask c op) }
{}

/// A waiting client that keeps nothing but the one answer keeps one more response of it, of a replica of which it kept none; with as
/// many as complete a request at once the request is complete.
pub fn calm_responses()
    ensures keeps { (c : ClientState) (waiting : Signed Ask) (a : Answered) (count id : ℕ) (r : Response) → Awaits c waiting a count → IsOf a id r → id < c.counts.n → kept_of c id ≡ None → count + 1 < c.counts.fast → hear_response c r r.spec.by ≡ taken (keep c id r) }
    ensures completes { (c : ClientState) (waiting : Signed Ask) (a : Answered) (count id : ℕ) (r : Response) → Awaits c waiting a count → IsOf a id r → id < c.counts.n → kept_of c id ≡ None → c.counts.fast ≤ count + 1 → hear_response c r r.spec.by ≡ taken (complete (keep c id r) r) }
    ensures awaits { (c : ClientState) (waiting : Signed Ask) (a : Answered) (count id : ℕ) (r : Response) → Awaits c waiting a count → IsOf a id r → id < c.counts.n → kept_of c id ≡ None → Awaits (keep c id r) waiting a (count + 1) }
{}

/// When its timer runs out and it keeps enough responses for a certificate, that goes to all replicas, and no local commit is counted
/// yet.
pub fn calm_timers()
    ensures row { (c : ClientState) (waiting : Signed Ask) (a : Answered) (count : ℕ) → Awaits c waiting a count → 1 ≤ c.counts.cert → c.counts.cert ≤ count → run_out c ≡ send_commit c a.spec a.reply }
    ensures certificate { (c : ClientState) (waiting : Signed Ask) (a : Answered) (count : ℕ) → Awaits c waiting a count → 1 ≤ c.counts.cert → c.counts.cert ≤ count → IsCertificateOf a c.counts.cert (certificate_of c a.spec) }
    ensures commit { (c : ClientState) (waiting : Signed Ask) (a : Answered) (count : ℕ) → Awaits c waiting a count → 1 ≤ c.counts.cert → c.counts.cert ≤ count → (send_commit c a.spec a.reply).state.commit ≡ Some (commit_with c.counts.local a []) }
{}

/// A local commit to the certificate that was sent is counted; with as many as are wanted the request is complete.
pub fn calm_locals()
    ensures counts { (c : ClientState) (waiting : Signed Ask) (a : Answered) (wanted : ℕ) (votes : List (Signed Local)) (vote : Signed Local) → c.waiting ≡ Some waiting → c.commit ≡ Some (commit_with wanted a votes) → IsFresh a votes vote → length votes + 1 < wanted
        → count_local c vote ≡ taken (record c { commit = Some (commit_with wanted a (votes ++ vote ∷ [])) }) }
    ensures completes { (c : ClientState) (waiting : Signed Ask) (a : Answered) (wanted : ℕ) (votes : List (Signed Local)) (vote : Signed Local) → c.waiting ≡ Some waiting → c.commit ≡ Some (commit_with wanted a votes) → IsFresh a votes vote → length votes + 1 ≡ wanted
        → count_local c vote ≡ taken (complete_by c (commit_with wanted a votes)) }
{}

/// A client that waits for nothing refuses responses and local commits as finished.
pub fn late_answers()
    ensures response { (c : ClientState) (r : Response) (id : ℕ) → c.waiting ≡ None → is_by_primary c r.order ≡ true → hear_response c r (Replica (record { 0 = id })) ≡ refused causes.Finished c }
    ensures local { (c : ClientState) (vote : Signed Local) → c.waiting ≡ None → count_local c vote ≡ refused causes.Finished c }
{}
