//! Laws of the checker's answers. The function does nothing; its contract is the law.

ghost use Rattle.certificate_checker.specs.CertificateAnswers.{CheckerAgrees};

/// States how the checker answers the text of a certificate. It answers the grouping that the certificate names, or
/// that no grouping is lawful if the certificate names none. Or it answers that the budget is too small.
pub fn checker_agrees()
    ensures { CheckerAgrees }
{}
