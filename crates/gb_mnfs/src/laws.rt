//! Laws of texts and manifests.

ghost use Rattle.std.specs.Prelude.{◌≡◌, ℕ, Ok, List};
ghost use Rattle.gb_base.specs.Bytes.{AreBytes};
ghost use Rattle.gb_formats.specs.Manifest as manifest;
ghost use Rattle.gb_formats.specs.Manifest.{IsManifest};
ghost use Rattle.gb_formats.specs.ManifestSpec as formats;
ghost use Rattle.gb_formats.specs.ManifestSpec.{plain, write_answer};
ghost use Rattle.gb_formats.specs.Source.{IsSource, compile_answer};
ghost use Rattle.gb_formats.specs.SourceTexts.{manifest_spec, source_text};
ghost use Rattle.gb_mnfs.specs.Fits.{Fits};

/// The text of a spec is a source of it.
pub fn texts_are_sources()
    // Of each spec whose numbers fit in their bytes.
    ensures spec { (spec : formats.ManifestSpec) → Fits spec → IsSource (source_text spec) spec }

    // Of the spec of each manifest.
    ensures manifest { (bytes : List ℕ) → (m : manifest.Manifest) → AreBytes bytes
        → IsManifest bytes m → IsSource (source_text (manifest_spec m)) (manifest_spec m) }

    // So what is made of it is the plain manifest of that spec.
    ensures back { (bytes : List ℕ) → (m : manifest.Manifest) → AreBytes bytes
        → IsManifest bytes m
        → compile_answer (source_text (manifest_spec m)) ≡ Ok (plain (manifest_spec m)) }

    // And of a manifest that was written of a spec it is the manifest itself.
    ensures same { (spec : formats.ManifestSpec) → (bytes : List ℕ) → (m : manifest.Manifest)
        → Fits spec → write_answer spec ≡ Ok bytes → AreBytes bytes → IsManifest bytes m
        → compile_answer (source_text (manifest_spec m)) ≡ Ok bytes }
{}
