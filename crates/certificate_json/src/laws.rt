//! The law that what is written is read back.

ghost use Rattle.certificate_json.specs.ReadsBack.{SetReadsBack, StepReadsBack, ValueReadsBack, MemberReadsBack, TextReadsBack};
ghost use Rattle.certificate_json.specs.PartCertificates.{PartTextReadsBack};

/// What is written for sets, steps and certificates is read again: each as a value, wherever that stands,
/// and a certificate as the last member of an object and as a text as well. A certificate in parts is read again as a text.
pub fn written_is_read()
    ensures sets { SetReadsBack }
    ensures steps { StepReadsBack }
    ensures values { ValueReadsBack }
    ensures members { MemberReadsBack }
    ensures texts { TextReadsBack }
    ensures parts { PartTextReadsBack }
{}
