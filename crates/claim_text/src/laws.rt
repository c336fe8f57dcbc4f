//! Laws of the definitions.
ghost use Rattle.std.specs.Prelude.{◌≡◌, ℕ, List};
ghost use Rattle.mote_net.specs.Report.{ReportModel};
ghost use Rattle.claims.specs.declared.claim.Claim.{Claim};
ghost use Rattle.claims.specs.declared.witness.Break.{Break};
ghost use Rattle.claims.specs.Shows.{Shows};
ghost use Rattle.claim_text.specs.BreakText.{break_text};

/// What shows that a report breaks a claim has one text.
pub fn one_reason()
    ensures same_text { (names : List (List ℕ)) (claim : Claim) (report : ReportModel) (one other : Break)
        → Shows claim report one → Shows claim report other
        → break_text names claim one ≡ break_text names claim other }
{}
