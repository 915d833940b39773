//! What is said of tokens, said of the files as they are. A call of it does nothing.

ghost use Rattle.std.specs.Prelude.{◌≡◌, List, Option};
ghost use Rattle.base_files.specs.Bytes.{Bytes};
ghost use Rattle.base_files.specs.Tree.{Tree};
ghost use Rattle.ckeys_records.specs.Meaning.{Asked, Meaning, Scene};
ghost use Rattle.ckeys_records.specs.declared.output_name.OutputName.{OutputName};
ghost use Rattle.ckeys_records.specs.declared.step.Step.{Step};
ghost use Rattle.wrap_replay.specs.Worlds.{Gives};
ghost use Rattle.wrap_replay_base.specs.declared.replay_tool.RecordedOutputs.{RecordedOutputs};
ghost use Rattle.wrap_replay_base.specs.declared.replay_tool.RecordedText.{RecordedText};
ghost use Rattle.wrap_replay.specs.Tokens.{decoded_scene, decoded_tree, decoding};
ghost use Rattle.wrap.specs.Account.{scene_at};
ghost use Rattle.wrap_base.specs.declared.request.Request.{Request};

/// The session has tokens in the place of headers, and what it answers is said of each world that gives on these what was recorded. A world
/// that gives it on the files as they are is one, where tokens are read as the contents that they represent; and what it gives then is what
/// it gives on the files as they are.
pub fn tokens_stand_for_contents()
    ensures recorded { (decode : Bytes → Bytes) (text : Option RecordedText)
        (outputs : Option RecordedOutputs) (executable : Bytes) (request : Request) (tree : Tree)
        (world : Meaning)
        → Gives text outputs (scene_at executable request (decoded_tree decode tree)) world
        → Gives text outputs (scene_at executable request tree) (decoding decode world) }
    ensures outcomes { (decode : Bytes → Bytes) (world : Meaning) (step : Step) (asked : Asked)
        (names : List OutputName) (scene : Scene)
        → decoding decode world step asked names scene
        ≡ world step asked names (decoded_scene decode scene) }
{}
