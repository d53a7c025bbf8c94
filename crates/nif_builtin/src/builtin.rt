//! Schema texts that are built in: each ends with a line feed.

/// `plain`: plain files of version 4.0.0.2, with blocks of one type that has a number.
pub const PLAIN: &[u8] = br##"<niftoolsxml version="0.10">
 <basic name="ulittle32"/>
 <basic name="uint"/>
 <basic name="HeaderString"/>
 <basic name="FileVersion"/>
 <basic name="Ref"/>
 <struct name="Header">
  <field name="Header String" type="HeaderString"/>
  <field name="Version" type="FileVersion"/>
  <field name="Num Blocks" type="ulittle32"/>
 </struct>
 <struct name="Footer">
  <field name="Num Roots" type="uint"/>
  <field name="Roots" type="Ref" template="PlainObject" length="Num Roots"/>
 </struct>
 <niobject name="PlainObject" abstract="true"/>
 <niobject name="PlainNumber" inherit="PlainObject">
  <field name="Value" type="uint"/>
 </niobject>
</niftoolsxml>
"##;

/// `scene`: small scenes of nodes, shapes, images and motions, in files of version 4.0.0.2 to 20.2.0.7.
pub const SCENE: &[u8] = br##"<niftoolsxml version="0.10">
 <token name="headexpr" attrs="cond">
  <headexpr token="#HAS_BS#" string="((Version #EQ# 20.2.0.7) #AND# (User Version #GTE# 3))"/>
 </token>
 <basic name="uint64"/><basic name="ulittle32"/><basic name="uint"/>
 <basic name="ushort"/><basic name="byte"/><basic name="char"/>
 <basic name="bool"/><basic name="float"/><basic name="BlockTypeIndex"/>
 <basic name="FileVersion"/><basic name="HeaderString"/>
 <basic name="Ref"/><basic name="Ptr"/><basic name="NiFixedString"/>
 <enum name="EndianType" storage="byte"/>
 <struct name="SizedString">
  <field name="Length" type="uint"/>
  <field name="Value" type="char" length="Length"/>
 </struct>
 <struct name="string">
  <field name="String" type="SizedString" until="20.0.0.5"/>
  <field name="Index" type="NiFixedString" since="20.1.0.3"/>
 </struct>
 <struct name="ExportString">
  <field name="Length" type="byte"/>
  <field name="Value" type="char" length="Length"/>
 </struct>
 <struct name="BSStreamHeader">
  <field name="BS Version" type="ulittle32"/>
  <field name="Author" type="ExportString"/>
  <field name="Process Script" type="ExportString" cond="BS Version #LT# 131"/>
  <field name="Export Script" type="ExportString"/>
 </struct>
 <struct name="Header">
  <field name="Header String" type="HeaderString"/>
  <field name="Version" type="FileVersion"/>
  <field name="Endian Type" type="EndianType" since="20.0.0.3"/>
  <field name="User Version" type="ulittle32" since="10.0.1.8"/>
  <field name="Num Blocks" type="ulittle32"/>
  <field name="BS Header" type="BSStreamHeader" cond="#HAS_BS#"/>
  <field name="Num Block Types" type="ushort" since="5.0.0.1"/>
  <field name="Block Types" type="SizedString" length="Num Block Types" since="5.0.0.1"/>
  <field name="Block Type Index" type="BlockTypeIndex" length="Num Blocks" since="5.0.0.1"/>
  <field name="Block Size" type="uint" length="Num Blocks" since="20.2.0.5"/>
  <field name="Num Strings" type="uint" since="20.1.0.1"/>
  <field name="Max String Length" type="uint" since="20.1.0.1"/>
  <field name="Strings" type="SizedString" length="Num Strings" since="20.1.0.1"/>
  <field name="Num Groups" type="uint" since="5.0.0.6"/>
  <field name="Groups" type="uint" length="Num Groups" since="5.0.0.6"/>
 </struct>
 <struct name="Footer">
  <field name="Num Roots" type="uint"/>
  <field name="Roots" type="Ref" template="SceneObject" length="Num Roots"/>
 </struct>
 <struct name="Key">
  <field name="Time" type="float"/>
  <field name="Value" type="#T#"/>
  <field name="Forward" type="#T#" cond="#ARG# #EQ# 2"/>
 </struct>
 <struct name="Keys">
  <field name="Num Keys" type="uint"/>
  <field name="Keys" type="Key" template="#T#" arg="#ARG#" length="Num Keys"/>
 </struct>
 <struct name="Volume">
  <field name="Kind" type="uint"/>
  <field name="Inner" type="Volume" cond="Kind #EQ# 1"/>
 </struct>
 <struct name="Hollow"/>
 <niobject name="SceneObject" abstract="true"/>
 <niobject name="SceneNamed" inherit="SceneObject" abstract="true">
  <field name="Name" type="string"/>
 </niobject>
 <niobject name="SceneNode" inherit="SceneNamed">
  <field name="Num Children" type="uint"/>
  <field name="Children" type="Ref" template="SceneNamed" length="Num Children"/>
  <field name="Target" type="Ptr" template="SceneNamed"/>
  <field name="Visible" type="bool"/>
 </niobject>
 <niobject name="SceneShape" inherit="SceneNamed">
  <field name="Num Strips" type="ushort"/>
  <field name="Lengths" type="ushort" length="Num Strips"/>
  <field name="Points" type="ushort" length="Num Strips" width="Lengths"/>
  <field name="Parent" type="Ptr" template="SceneNode"/>
  <field name="Image" type="Ref" template="SceneImage" since="10.0.1.0"/>
 </niobject>
 <niobject name="SceneImage" inherit="SceneObject">
  <field name="Num Bytes" type="uint"/>
  <field name="Pixels" type="byte" length="Num Bytes"/>
 </niobject>
 <niobject name="SceneSwitch" inherit="SceneObject">
  <field name="On" type="bool"/>
 </niobject>
 <niobject name="SceneMotion" inherit="SceneObject">
  <field name="Kind" type="uint"/>
  <field name="Keys" type="Keys" template="float" arg="Kind"/>
 </niobject>
 <niobject name="SceneRagged" inherit="SceneObject">
  <field name="Num Widths" type="byte"/>
  <field name="Widths" type="byte" length="Num Widths"/>
  <field name="Num Rows" type="byte"/>
  <field name="Rows" type="byte" length="Num Rows" width="Widths"/>
 </niobject>
 <niobject name="SceneVolume" inherit="SceneObject">
  <field name="Volume" type="Volume"/>
 </niobject>
 <niobject name="SceneHollow" inherit="SceneObject">
  <field name="Count" type="uint64"/>
  <field name="Items" type="Hollow" length="Count"/>
 </niobject>
</niftoolsxml>
"##;
