//! Laws on reading: a footer that was written is read again, and no bytes are asked twice.
ghost use Rattle.std.specs.Prelude.{◌≡◌, ◌≤◌, ◌<◌, ◌^◌, ◌++◌, length, List, ℕ, Option, Some, None, Ok, false};
ghost use Rattle.vx_data.specs.Dtype.{Dtype};
ghost use Rattle.vx_footer.specs.declared.deserializer.DeserializeStep.TheVariants.{NeedMoreData};
ghost use Rattle.vx_footer.specs.Footers.{FooterContent};
ghost use Rattle.vx_footer.specs.Opening.{vx_grammar};
ghost use Rattle.vx_footer.specs.Serialized.{serialized};
ghost use Rattle.vx_footer.specs.Steps.{step_of, asks_bytes};
ghost use Rattle.vx_data.specs.Layout.{dtype_of};
ghost use Rattle.vx_footer.specs.ReadAgain.{content_read, IsReadable, IsSupplied};
ghost use Rattle.vx_footer.specs.Serializing.{Serializing, Parts, serializing_checks};
ghost use Rattle.std.specs.List.{flat_map};
ghost use Rattle.vx_footer.specs.Writable.{IsWritable};

/// A file that ends in a written footer of at most 65,535 bytes opens to that footer, whatever stands
/// before it.
#[tactic(auto, using(crate::proofs::WrittenRead::read_back))]
pub fn written_footer_is_read()
    ensures { (front : List ℕ) (f : FooterContent) → length (serialized (length front) f) ≤ 65535 → length (front ++ serialized (length front) f) < 2 ^ 64 →
        IsWritable (length (front ++ serialized (length front) f)) f → vx_grammar (front ++ serialized (length front) f) None ≡ Ok f }
{}

/// Given the bytes that it asked for, a deserializer with the same size and dtype asks for none again.
#[tactic(auto, using(crate::proofs::Seen::no_second_request))]
pub fn bytes_are_asked_once()
    ensures { (dtype : Option Dtype) (size : ℕ) (seen more : List ℕ) (offset len : ℕ) → step_of dtype (Some size) seen ≡ Ok (NeedMoreData offset len) →
        length more ≡ len → asks_bytes (step_of dtype (Some size) (more ++ seen)) ≡ false }
{}

/// A file that ends in what a serializer wrote opens to the footer that was written, of any size, whatever stands
/// before it. The type is the supplied one, or the one that is written. Statistics without sets are read as none.
#[tactic(auto, using(crate::proofs::ReadBackFiles::serialized_again))]
pub fn serialized_footer_is_read()
    ensures { (front : List ℕ) (dtype : Option Dtype) (s : Serializing) (parts : Parts) → length front ≡ s.offset → serializing_checks s ≡ Ok parts →
        IsReadable (length (front ++ flat_map (λ part. part) parts.parts)) s → IsSupplied dtype s.excludes_dtype (dtype_of s.content.layout) →
        vx_grammar (front ++ flat_map (λ part. part) parts.parts) dtype ≡ Ok (content_read parts.content) }
{}
