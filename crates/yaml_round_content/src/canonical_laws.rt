//! Each clause is a law. Proofs cite laws of lower crates.

ghost use Rattle.yaml_round_content.specs.CanonicalLaws.{AllLoadDocuments, LoadedAreSound, LoadedAreWritable};
ghost use Rattle.yaml_round_content.specs.Normal.{
  DocumentTextsLoadAgain,
  DocumentTextsTell,
  DumpsAreLaidOut,
  DumpTextsLoadAgain,
  DumpTextsTellDocuments,
  InputsLoadAlike,
  LoadsAreDocuments,
  NamesDoNotMatter,
  PlainDocuments,
};

/// Documents, their canonical text and what it is read as.
pub fn laws_of_documents()
    // The documents of each input, also those before a fault, are documents as loading makes them.
    ensures all_load_documents { AllLoadDocuments }
    // Their texts are UTF-8, their numbers name their nodes, and follow the first visits in preorder from the root.
    ensures loaded_are_sound { LoadedAreSound }
    // What they say may be written.
    ensures loaded_are_writable { LoadedAreWritable }
    // For the dumps of an input's documents the canonical text of what they say is laid out.
    ensures dumps_are_laid_out { DumpsAreLaidOut }
    // The canonical text of what documents say that are as loading makes them, with its encoding detected, loads documents that agree
    // with them, without a fault, and is their text.
    ensures document_texts_load_again { DocumentTextsLoadAgain }
    // Such documents have one such text exactly if they agree.
    ensures document_texts_tell { DocumentTextsTell }
    // The documents of each input are such, also those before a fault.
    ensures loads_are_documents { LoadsAreDocuments }
    // So are those of its plain loading.
    ensures plain_documents { PlainDocuments }
    // That text, with its encoding detected, loads documents that agree with the input's, without a fault, and is their text.
    ensures dump_texts_load_again { DumpTextsLoadAgain }
    // Inputs have one such text exactly if their documents agree.
    ensures dump_texts_tell_documents { DumpTextsTellDocuments }
    // Inputs with one content load documents that agree, and both or neither are refused.
    ensures inputs_load_alike { InputsLoadAlike }
    // The names of anchors don't matter: inputs with one content except for the names of each document have one such text.
    ensures names_do_not_matter { NamesDoNotMatter }
{}
