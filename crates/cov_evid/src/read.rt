ghost use Rattle.std.specs.Prelude.{◌≡◌, ◌⊎◌, ◌≤◌, ◌++◌, [], ◌∷◌, codes, decimal, length, IfOk, IfErr, OnOk, Ok, Err, Some};
ghost use Rattle.cov_model.specs.declared.model.Model.{Model as AModel};
ghost use Rattle.cov_evid.specs.Cursors.{IsRefusal, IsSoleClaim, IsSoleEvidence, IsTaken, fault_in};
ghost use Rattle.cov_evid.specs.FirstFault as spec;
ghost use Rattle.cov_evid.specs.Spelling.{IsNumber, IsProper, IsProperClaim, IsWithinLimits, claim_lines, spelled};
ghost use Rattle.cov_claims.specs.declared.evidence.Evidence.{Evidence as AnEvidence};

use crate::fault::{EvidFault, EvidFaultKind, EvidRefused};
use crate::front::behind;
use crate::lines::Lines;
use crate::number::number_behind;
use crate::states::{read_at, read_lasso};
use cov_claims::{Claim, Evidence};
use cov_types::Checked;
use std::alloc::Global;

/// The most bytes of a text.
const LONGEST_TEXT: usize = 67_108_864;

/// Reads evidence that speaks of a model. It takes time linear in the text.
pub fn read_evidence(alloc: Global, m: &Checked, text: &[u8]) -> Result<Evidence, EvidRefused>
    ensures ok { IfOk result (λ e. IsProper m.now e × IsWithinLimits m.now e × (text.now ≡ spelled m.now e)) }

    // Only the text of evidence that speaks of the model is read, and each such text is.
    ensures only { (e : AnEvidence) → IsProper m.now e → IsWithinLimits m.now e → text.now ≡ spelled m.now e → (result ≡ Ok e) ⊎ (result ≡ Err EvidRefused.Memory) }
    ensures fault { IfErr result (IsRefusal (spec.evid_fault m.now text.now)) }
{
    // The model is well formed, as its call tells.
    let _model = m.model();
    read_lines(alloc, m, text)
}

/// Reads the lines one after the other.
fn read_lines(alloc: Global, m: &Checked, text: &[u8]) -> Result<Evidence, EvidRefused>
    ensures ok { IfOk result (λ e. IsProper m.now e × IsWithinLimits m.now e × (text.now ≡ spelled m.now e)) }
    ensures sole { IfOk result (IsSoleEvidence m.now) }
    ensures fault { IfErr result (IsRefusal (spec.evid_fault m.now text.now)) }
{
    if text.len() > LONGEST_TEXT {
        return Err(EvidRefused::Fault(EvidFaultKind::TooLong.at(1)));
    }
    let mut lines = Lines::new(text);
    read_header(&mut lines)?;
    let spec = read_spec(&mut lines)?;
    let claim = read_claim(alloc, m, &mut lines)?;
    let lasso = read_lasso(alloc, m.model(), &mut lines)?;
    if !lines.is_empty() {
        return Err(EvidRefused::Fault(EvidFaultKind::Trailing.at(lines.number())));
    }
    Ok(Evidence { claim, spec, lasso })
}

/// Reads the first line.
fn read_header(lines: &mut Lines<'_>) -> Result<(), EvidFault>
    ensures ok { OnOk result (IsTaken lines.old (codes "covsmv evidence 1" ∷ []) lines.new) }
    ensures on { (m : AModel) → OnOk result (fault_in m spec.for_header lines.old ≡ fault_in m spec.for_spec lines.new) }
    ensures fault { (m : AModel) → IfErr result (λ f. fault_in m spec.for_header lines.old ≡ Some f) }
{
    let number = lines.number();
    if lines.next()? == b"covsmv evidence 1".as_slice() {
        Ok(())
    } else {
        Err(EvidFaultKind::Header.at(number))
    }
}

/// Reads the number of the specification.
fn read_spec(lines: &mut Lines<'_>) -> Result<u32, EvidFault>
    ensures ok { IfOk result (λ n. IsNumber n × IsTaken lines.old ((codes "spec " ++ decimal n) ∷ []) lines.new) }
    ensures on { (m : AModel) → IfOk result (λ n. fault_in m spec.for_spec lines.old ≡ fault_in m spec.for_claim lines.new) }
    ensures fault { (m : AModel) → IfErr result (λ f. fault_in m spec.for_spec lines.old ≡ Some f) }
{
    let number = lines.number();
    match number_behind(b"spec ", lines.next()?) {
        Some(n) => Ok(n),
        None => Err(EvidFaultKind::Line.at(number)),
    }
}

/// Reads what the lasso is evidence of.
fn read_claim(alloc: Global, m: &Checked, lines: &mut Lines<'_>) -> Result<Claim, EvidRefused>
    ensures ok { IfOk result (λ c. IsProperClaim m.now c × IsTaken lines.old (claim_lines m.now c) lines.new) }
    ensures sole { IfOk result (IsSoleClaim m.now) }
    ensures on { IfOk result (λ c. fault_in m.now spec.for_claim lines.old ≡ fault_in m.now spec.for_stem lines.new) }
    ensures fault { IfErr result (IsRefusal (fault_in m.now spec.for_claim lines.old)) }
{
    let number = lines.number();
    let line = lines.next()?;
    match behind(b"signal ", line) {
        Some(name) => match m.signal(name) {
            Some(signal) => {
                let at = read_at(alloc, m.model(), lines)?;
                Ok(Claim::Mutant { signal, at })
            }
            None => Err(EvidRefused::Fault(EvidFaultKind::UnknownName.at(number))),
        },
        None => match number_behind(b"occurrence ", line) {
            Some(n) => Ok(Claim::Occurrence(n)),
            None => Err(EvidRefused::Fault(EvidFaultKind::Line.at(number))),
        },
    }
}
